//! Why a file gives no batch.
ghost use Rattle.std.specs.Prelude.{◌≡◌};
ghost use Rattle.allotment_csv.specs.declared.faults.CsvFault.TheVariants.{Memory};
ghost use Rattle.allotment_csv.specs.Files.{in_csv};

use commands::CsvCause;
use std::alloc::{AllocError, AllocFailed};

/// Why a file gives no batch: a refusal, or out of memory.
#[derive(Clone, Copy, Debug, PartialEq, Eq)]
pub enum CsvFault {
    /// The name is no name of a batch.
    BadBody,
    /// What is wrong with the file, and in which row, counted from 1; 0 where the fault is of the file as a whole.
    BadCsv { row: usize, cause: CsvCause },
    /// Out of memory.
    Memory,
}

/// The fault of this cause in this row.
pub fn in_row(row: usize, cause: CsvCause) -> CsvFault
    ensures { result ≡ in_csv row cause }
{
    CsvFault::BadCsv { row, cause }
}

impl From<AllocError> for CsvFault {
    ghost from_gives = { λ _ fault. fault ≡ Memory };

    fn from(_error: AllocError) -> CsvFault {
        CsvFault::Memory
    }
}

impl<T: Drop> From<AllocFailed<T>> for CsvFault {
    ghost from_gives = { λ _ fault. fault ≡ Memory };

    fn from(_error: AllocFailed<T>) -> CsvFault {
        CsvFault::Memory
    }
}
