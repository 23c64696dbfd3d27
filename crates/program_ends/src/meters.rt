//! How many lines came, and when that is to be shown.
ghost use Rattle.std.specs.Prelude.{◌≡◌, filter, length};
ghost use Rattle.program_ends.specs.Lines.{is_line_feed};

/// Counts the lines of an input, and knows when their number is to be shown.
#[derive(Clone, Copy, Debug, PartialEq, Eq)]
pub struct Meter {
    /// How many line feeds came so far, up to 2^64 - 1.
    pub lines: u64,
    /// The last whole second in which the number was shown; at first 0.
    pub second: u64,
}

impl Meter {
    ghost use Rattle.std.specs.Prelude.{◌≡◌, ◌+◌, ◌<◌, ◌↔◌, filter, length, min, max, IsTrue};
    ghost use Rattle.program_ends.specs.Lines.{is_line_feed, most_lines};

    /// Nothing came yet.
    pub fn new() -> Meter
        ensures none { result.lines ≡ 0 }
        ensures begins { result.second ≡ 0 }
    {
        Meter {
            lines: 0,
            second: 0,
        }
    }

    /// Counts the line feeds of the next bytes.
    pub fn count(&mut self, bytes: &[u8])
        ensures lines { self.new.lines
            ≡ min (self.old.lines + length (filter is_line_feed bytes.now)) most_lines }
        ensures second { self.new.second ≡ self.old.second }
    {
        self.lines = self.lines.saturating_add(line_feeds(bytes) as u64);
    }

    /// Whether the number is to be shown now, so many whole seconds after the start: once in each later second.
    pub fn is_due(&mut self, second: u64) -> bool
        ensures due { IsTrue result ↔ (self.old.second < second) }
        ensures once { self.new.second ≡ max self.old.second second }
        ensures lines { self.new.lines ≡ self.old.lines }
    {
        if second <= self.second {
            return false;
        }
        self.second = second;
        true
    }
}

/// How many of the bytes are line feeds.
fn line_feeds(bytes: &[u8]) -> usize
    ensures number { result ≡ length (filter is_line_feed bytes.now) }
{
    bytes.iter().filter(|byte| **byte == b'\n').count()
}
