//! Why a report ended early.
ghost use Rattle.std.specs.Prelude.{◌≡◌};
ghost use Rattle.reports.specs.Faults.{report_fault};
ghost use Rattle.reports.specs.declared.faults.ReportFault.TheVariants.{Memory, Write};

use commands::Fault;
use saga_core::WriteFailed;
use std::alloc::AllocError;

/// Why a report ended early. A prefix of it was written.
#[derive(Clone, Copy, Debug, PartialEq, Eq)]
pub enum ReportFault {
    /// Out of memory.
    Memory,
    /// The store failed to return a row.
    Store,
    /// A write failed, or took no byte.
    Write,
}

impl From<Fault> for ReportFault {
    ghost from_gives = { λ fault told. told ≡ report_fault fault };

    fn from(fault: Fault) -> ReportFault {
        match fault {
            Fault::Memory => ReportFault::Memory,
            Fault::Store => ReportFault::Store,
        }
    }
}

impl From<AllocError> for ReportFault {
    ghost from_gives = { λ _ fault. fault ≡ Memory };

    fn from(_error: AllocError) -> ReportFault {
        ReportFault::Memory
    }
}

impl From<WriteFailed> for ReportFault {
    ghost from_gives = { λ _ fault. fault ≡ Write };

    fn from(_error: WriteFailed) -> ReportFault {
        ReportFault::Write
    }
}
