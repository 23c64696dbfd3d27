//! The jobs of the program, and the faults of its words.
ghost use Rattle.std.specs.Prelude.{◌≡◌};
ghost use Rattle.command_line.specs.declared.jobs.JobFault.TheVariants.{Memory};

use allotment::Cell;
use saga_core::{CellFilter, Format, JourneyFilter};
use std::alloc::AllocError;

/// A job of the program.
#[derive(Drop)]
pub enum Job {
    /// Recover the desk over this file, and answer the lines of standard input.
    Run {
        file: String,
    },
    /// Recover the desk over this file, and serve connections to a port of this host.
    Serve {
        file: String,
        /// 1 to 65,535.
        port: u16,
        /// How many it takes in all, 1 to 1,000. Without it, it serves until it is stopped.
        connections: Option<u16>,
        /// The path of a Unix socket that it serves too.
        house: Option<String>,
        /// Whether it serves the page for browsers too.
        page: bool,
        /// How it writes its log on standard error, if it does.
        log: Option<LogForm>,
        /// Whether it reads HTTP as libraries, proxies and pools speak it.
        wide: bool,
    },
    /// Recover the desk over this file.
    Recover {
        file: String,
    },
    /// Recover the desk over this file, and load this allotment file as a batch of this name.
    Load {
        file: String,
        csv: String,
        batch: String,
    },
    /// Print the stock of the desk over this file: the cells that are asked for.
    Stock {
        file: String,
        filter: CellFilter,
        format: Format,
    },
    /// Print a month of nights for each product of the cells that are asked for, with how full each night is.
    Calendar {
        file: String,
        filter: CellFilter,
    },
    /// Print how many nights and places the cells that are asked for have in each month.
    Summary {
        file: String,
        filter: CellFilter,
        format: Format,
    },
    /// Print the journeys of the desk over this file that hold places of a cell.
    Holders {
        file: String,
        cell: Cell,
        format: Format,
    },
    /// Print who holds places of the cells of the desk over this file that are asked for, night by night.
    Holdings {
        file: String,
        filter: CellFilter,
        format: Format,
    },
    /// Print the unfinished journeys of the desk over this file that are asked for.
    Unfinished {
        file: String,
        filter: JourneyFilter,
        format: Format,
    },
    /// Print the journeys of the desk over this file that are asked for.
    Journeys {
        file: String,
        filter: JourneyFilter,
        format: Format,
    },
    /// Print the history of a journey of the desk over this file.
    History {
        file: String,
        id: String,
        format: Format,
    },
    /// Print why a journey of the desk over this file stands where it does.
    Why {
        file: String,
        /// 1 to `MOST_EVENTS`.
        id: u64,
        format: Format,
    },
    /// Migrate the database in this file from schema 1 to schema 2.
    Migrate {
        file: String,
    },
    /// Add the index on the agents of journeys to the database in this file.
    Index {
        file: String,
    },
    /// Print the version of the program.
    Version,
}

/// How the lines of the log of a desk that serves begin.
#[derive(Clone, Copy, Debug, PartialEq, Eq)]
pub enum LogForm {
    /// Without a time.
    Plain,
    /// With their times.
    Timed,
}

/// Why the words have no job.
#[derive(Debug, Drop)]
pub enum JobFault {
    /// The words are refused, or ask for help. The text is printed for the user.
    Usage(String),
    /// Out of memory.
    Memory,
}

impl JobFault {
    ghost use Rattle.std.specs.Prelude.{◌≡◌, IfErr, IfOk};
    ghost use Rattle.command_line.specs.declared.jobs.JobFault.TheVariants.{Usage, Memory};

    /// The fault with this text, if there was memory for it.
    pub(crate) fn of_text(text: Result<String, AllocError>) -> JobFault
        ensures usage { IfOk text (λ shown. result ≡ Usage shown) }
        ensures memory { IfErr text (λ _. result ≡ Memory) }
    {
        match text {
            Ok(text) => JobFault::Usage(text),
            Err(_) => JobFault::Memory,
        }
    }
}

impl From<AllocError> for JobFault {
    ghost from_gives = { λ _ fault. fault ≡ Memory };

    fn from(_error: AllocError) -> JobFault {
        JobFault::Memory
    }
}
