//! The limits within which sockets are served.

/// For how many ticks a message may be not whole, or a page not taken: 30 seconds.
pub const PATIENCE: u64 = 300;

/// How many connections there are in all, and how long a peer may owe something.
#[derive(Clone, Copy, Debug, PartialEq, Eq)]
pub struct Limits {
    /// How many connections there are in all, if that is limited.
    pub connections: Option<u16>,
    /// For how many ticks a message may be not whole, or a page not taken.
    pub patience: u64,
}
