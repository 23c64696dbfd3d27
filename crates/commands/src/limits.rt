//! The limits of names, of batches, and of the numbers that texts spell.

/// The most bytes of a batch's name.
pub(crate) const LONGEST_BATCH_NAME: usize = 24;

/// The most bytes of an agent.
pub(crate) const LONGEST_AGENT: usize = 16;

/// The most bytes of a key.
pub(crate) const LONGEST_KEY: usize = 32;

/// The most rows of a batch.
pub const MOST_ROWS: usize = 2_000;

/// The most bytes of an allotment file, and so of a message's body.
pub const MOST_BYTES: usize = 262_144;

/// The greatest number of events that a ledger may have, and so the greatest number of a journey.
pub const MOST_EVENTS: u64 = 999_999_999_999;

/// The greatest position that a request may name, whether a journey has it or not.
pub const MOST_NAMED_POSITION: usize = 99;
