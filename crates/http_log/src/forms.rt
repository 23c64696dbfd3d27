//! How the lines of the log begin.

/// How the lines of the log begin.
#[derive(Clone, Copy, Debug, PartialEq, Eq)]
pub enum LogForm {
    /// As a journal keeps them, which knows when each was written.
    Plain,
    /// With their times.
    Timed,
}
