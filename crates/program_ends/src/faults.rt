//! The faults that end the program: their numbers, names and lines.
ghost use Rattle.std.specs.Prelude.{◌≡◌};
ghost use Rattle.saga_core.specs.StreamFaults.{served_fault};
ghost use Rattle.program_ends.specs.Ends.{fault_line, fault_name, fault_number, fault_of_report, fault_of_run};

use commands::Fault;
use reports::ReportFault;
use saga_core::ServeFault;

/// A fault that ends the program.
#[derive(Clone, Copy, Debug, PartialEq, Eq)]
pub enum ProgramFault {
    /// Out of memory.
    Memory,
    /// The store failed.
    Store,
    /// The store cannot be opened.
    OpeningStore,
    /// Out of memory while the store was opened.
    OpeningMemory,
    /// The input cannot be read.
    Read,
    /// An output cannot be written.
    Write,
    /// A file is absent or cannot be read.
    File,
    /// A port cannot be listened on, or a desk cannot be asked.
    Net,
}

impl ProgramFault {
    /// The fault's number.
    pub fn number(self) -> u8
        ensures number { result ≡ fault_number self }
    {
        match self {
            ProgramFault::Memory => 17,
            ProgramFault::Store => 18,
            ProgramFault::OpeningStore => 21,
            ProgramFault::OpeningMemory => 22,
            ProgramFault::Read => 24,
            ProgramFault::Write => 25,
            ProgramFault::File => 26,
            ProgramFault::Net => 27,
        }
    }

    /// The fault's name.
    pub fn name(self) -> &'static str
        ensures name { result.now ≡ fault_name self }
    {
        match self {
            ProgramFault::Memory | ProgramFault::OpeningMemory => "Memory",
            ProgramFault::Store | ProgramFault::OpeningStore => "Store",
            ProgramFault::Read => "Read",
            ProgramFault::Write => "Write",
            ProgramFault::File => "File",
            ProgramFault::Net => "Net",
        }
    }

    /// The fault's line, with a line feed. Allocates nothing, so that out of memory can be reported.
    pub fn line(self) -> &'static str
        ensures line { result.now ≡ fault_line self }
    {
        match self {
            ProgramFault::Memory => "fault 17 Memory\n",
            ProgramFault::Store => "fault 18 Store\n",
            ProgramFault::OpeningStore => "fault 21 Store\n",
            ProgramFault::OpeningMemory => "fault 22 Memory\n",
            ProgramFault::Read => "fault 24 Read\n",
            ProgramFault::Write => "fault 25 Write\n",
            ProgramFault::File => "fault 26 File\n",
            ProgramFault::Net => "fault 27 Net\n",
        }
    }
}

impl From<ServeFault> for ProgramFault {
    ghost from_gives = { λ fault told. told ≡ fault_of_run fault };

    fn from(fault: ServeFault) -> ProgramFault {
        match fault {
            ServeFault::Memory => ProgramFault::Memory,
            ServeFault::Store => ProgramFault::Store,
            ServeFault::Read => ProgramFault::Read,
            ServeFault::Write => ProgramFault::Write,
        }
    }
}

impl From<Fault> for ProgramFault {
    ghost from_gives = { λ fault told. told ≡ fault_of_run (served_fault fault) };

    fn from(fault: Fault) -> ProgramFault {
        match fault {
            Fault::Memory => ProgramFault::Memory,
            Fault::Store => ProgramFault::Store,
        }
    }
}

impl From<ReportFault> for ProgramFault {
    ghost from_gives = { λ fault told. told ≡ fault_of_report fault };

    fn from(fault: ReportFault) -> ProgramFault {
        match fault {
            ReportFault::Memory => ProgramFault::Memory,
            ReportFault::Store => ProgramFault::Store,
            ReportFault::Write => ProgramFault::Write,
        }
    }
}
