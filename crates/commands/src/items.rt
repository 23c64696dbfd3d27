//! Items of a journey's history, and where a journey is.

/// Why a journey turns back.
#[derive(Clone, Copy, Debug, PartialEq, Eq)]
pub enum Cause {
    /// The desk was stopped while the journey was running.
    Stop,
    /// No option of the next step fitted.
    Refused,
    /// A caller asked for it.
    Asked,
}

/// One item of a journey's history. Steps and their options count from 1.
#[derive(Clone, Copy, Debug, PartialEq, Eq)]
pub enum Item {
    /// A step is done, with one of its options.
    Transaction { step: usize, option: usize },
    /// A step is compensated: the option that was taken gives its places back.
    Compensation { step: usize, option: usize },
    /// The journey turns back to a position.
    Turn { target: usize, cause: Cause },
    /// A save-point is taken at the present position.
    Save { position: usize },
}

/// What a journey does.
#[derive(Clone, Copy, Debug, PartialEq, Eq)]
pub enum Phase {
    /// It goes forward.
    Run,
    /// It goes back to this position.
    Back(usize),
    /// All its steps are done.
    Ended,
    /// All its steps are compensated, and it will not go on.
    Undone,
}

/// Where a journey is.
#[derive(Clone, Copy, Debug, PartialEq, Eq)]
pub struct Cursor {
    /// How many of its steps stand.
    pub pos: usize,
    pub phase: Phase,
    /// How many times a step of it was refused.
    pub used: usize,
}
