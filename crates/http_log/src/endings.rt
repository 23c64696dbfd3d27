//! Why a connection ended.
ghost use Rattle.std.specs.Prelude.{◌≡◌};
ghost use Rattle.http_log.specs.Lines.{why_word};

/// Why a connection ended.
#[derive(Clone, Copy, Debug, PartialEq, Eq)]
pub enum Why {
    /// Its peer ended it. No request was under way, and each page was written.
    Left,
    /// Its peer ended it within a request.
    CutOff,
    /// Its peer ended it before a page was written whole.
    NotTaken,
    /// The closing page was written, and its peer ended, or was silent for too long.
    Closed,
    /// Its request took too long to be whole.
    LateRequest,
    /// Its peer did not take a page in time.
    LatePage,
    /// All places were taken, it was silent for longest, and another connection came.
    Displaced,
    /// Out of memory.
    Memory,
    /// The desk ended.
    Stopped,
}

impl Why {
    /// The word of the log.
    pub fn word(self) -> &'static str
        ensures word { result.now ≡ why_word self }
    {
        match self {
            Why::Left => "left",
            Why::CutOff => "cut-off",
            Why::NotTaken => "not-taken",
            Why::Closed => "closed",
            Why::LateRequest => "late-request",
            Why::LatePage => "late-page",
            Why::Displaced => "displaced",
            Why::Memory => "memory",
            Why::Stopped => "stopped",
        }
    }
}
