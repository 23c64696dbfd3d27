//! Replies, refusals, and faults, which are no replies.

use crate::items::{Item, Phase};
use crate::names::Name;
use plan::BadPlan;

/// The answer to a command.
#[derive(Clone, Copy, Debug, PartialEq, Eq)]
pub enum Reply {
    /// The batch is loaded, with so many rows.
    Loaded {
        name: Name,
        rows: usize,
    },
    /// The journey is begun, and this is its number.
    Begun {
        id: u64,
    },
    /// The journey made this item, and is now at this position and in this phase.
    Moved {
        id: u64,
        item: Item,
        pos: usize,
        phase: Phase,
    },
    /// The command was refused, and changed nothing.
    Refused(Refusal),
}

/// What is wrong with an allotment file.
#[derive(Clone, Copy, Debug, PartialEq, Eq)]
pub enum CsvCause {
    /// It has more bytes than a file may have.
    Size,
    /// Its first record is not the header.
    Header,
    /// It has more rows than a batch may have.
    Many,
    /// A row has not five fields, or a field is not UTF-8.
    Shape,
    /// A row's kind is none of the four.
    Kind,
    /// A row's supplier or product is no code.
    Code,
    /// A row's night is no night.
    Night,
    /// A row's places are no number, or too many.
    Places,
    /// A row's cell stands in an earlier row.
    Twice,
    /// It has no row.
    Empty,
}

/// What the desk refuses. A refusal changes nothing.
#[derive(Clone, Copy, Debug, PartialEq, Eq)]
pub enum Refusal {
    /// The head of a message is no head, or not one of the desk's.
    BadHead,
    /// No single good agent is named.
    NoAgent,
    /// No single good key is named.
    NoKey,
    /// A body, a line or a part of a path has the wrong form.
    BadBody,
    /// A plan has the wrong form or passes a limit.
    BadPlan(BadPlan),
    /// An allotment file has the wrong form; the row counts from 1.
    BadCsv { row: usize, cause: CsvCause },
    /// No route has this path.
    UnknownPath,
    /// The route has another method.
    WrongMethod,
    /// There is no such journey, or it is another agent's.
    NoJourney,
    /// The journey has ended or is undone.
    Finished,
    /// The journey may not turn back to there now.
    NoSavePoint,
    /// A row of the batch has fewer places than journeys hold; it counts from 1.
    BelowHeld { row: usize },
    /// The batch's name is known, with other rows.
    BatchDiffers,
    /// The key is known, with another text.
    KeyReused,
    /// The body is too large.
    TooLarge,
    /// The ledger is full.
    Limit,
    /// A message that has a body does not give its length.
    NoLength,
    /// The file's tables are of another version.
    UnknownSchema { version: u64 },
    /// The file's tables are of the newest version already.
    AlreadyNew,
    /// No save-point may be taken here now.
    NoSave,
}

/// Why a call of a book has no answer.
#[derive(Clone, Copy, Debug, PartialEq, Eq)]
pub enum Fault {
    /// Out of memory. The call changed nothing.
    Memory,
    /// The store failed. From then on every call of the book reports this fault.
    Store,
}
