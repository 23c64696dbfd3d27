//! Why a store could not be opened.

/// Why a store could not be opened.
#[derive(Clone, Copy, Debug, PartialEq, Eq)]
pub enum OpenFault {
    /// The tables have this version, which the call does not accept.
    UnknownSchema(u64),
    /// The store failed, or has tables without a readable version.
    Store,
    /// Out of memory.
    Memory,
}
