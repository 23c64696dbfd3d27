//! Why a run over a reader and a writer ended early.
ghost use Rattle.std.specs.Prelude.{◌≡◌};
ghost use Rattle.saga_core.specs.StreamFaults.{served_fault};
ghost use Rattle.saga_core.specs.declared.serve_faults.ServeFault.TheVariants.{Memory, Write};

use crate::WriteFailed;
use commands::Fault;
use std::alloc::{AllocError, AllocFailed};

/// Why a run over a reader and a writer ended early. What was answered before stays answered.
#[derive(Clone, Copy, Debug, PartialEq, Eq)]
pub enum ServeFault {
    /// Out of memory.
    Memory,
    /// The store failed.
    Store,
    /// A read failed, or the input has more bytes than can be counted.
    Read,
    /// A write failed, or took no byte.
    Write,
}

impl From<Fault> for ServeFault {
    ghost from_gives = { λ fault served. served ≡ served_fault fault };

    fn from(fault: Fault) -> ServeFault {
        match fault {
            Fault::Memory => ServeFault::Memory,
            Fault::Store => ServeFault::Store,
        }
    }
}

impl From<AllocError> for ServeFault {
    ghost from_gives = { λ _ fault. fault ≡ Memory };

    fn from(_error: AllocError) -> ServeFault {
        ServeFault::Memory
    }
}

impl<T: Drop> From<AllocFailed<T>> for ServeFault {
    ghost from_gives = { λ _ fault. fault ≡ Memory };

    fn from(_error: AllocFailed<T>) -> ServeFault {
        ServeFault::Memory
    }
}

impl From<WriteFailed> for ServeFault {
    ghost from_gives = { λ _ fault. fault ≡ Write };

    fn from(_error: WriteFailed) -> ServeFault {
        ServeFault::Write
    }
}
