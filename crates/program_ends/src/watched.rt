//! A reader that shows how far it is.
ghost use Rattle.std.specs.Prelude.{◌≡◌};

use crate::meters::Meter;
use std::io::{self, Read, Write};
use std::time::{Clock, Instant};

/// A reader whose lines are counted at a terminal, if there is one.
#[derive(Drop)]
pub struct Watched<'a, C: Clock, R: Read, W: Write + Drop> {
    clock: &'a C,
    reader: R,
    /// Where the number of lines is shown, and the time at which the reader began.
    shown: Option<(W, Instant)>,
    meter: Meter,
}

impl<'a, C: Clock, R: Read, W: Write + Drop> Watched<'a, C, R, W> {
    /// Shows nothing without a terminal, and none without a clock.
    pub fn new(clock: &'a C, reader: R, terminal: Option<W>) -> Watched<'a, C, R, W>
        ensures reader { result.reader ≡ reader }
    {
        let shown = match (terminal, Instant::now(clock)) {
            (Some(terminal), Ok(start)) => Some((terminal, start)),
            _ => None,
        };
        Watched {
            clock,
            reader,
            shown,
            meter: Meter::new(),
        }
    }

    /// Counts the lines of what was read, and shows their number if that is due. Nothing was read at the end of the input.
    ///
    /// The terminal's cursor is left at the beginning of the line, so that what is written next takes its place.
    fn note(&mut self, bytes: &[u8])
        ensures reader { self.new.reader ≡ self.old.reader }
    {
        let Some((terminal, start)) = &mut self.shown else {
            return;
        };
        self.meter.count(bytes);
        if bytes.is_empty() {
            if self.meter.second > 0 {
                let _ = write!(terminal, "{:48}\r", "");
            }
        } else if let Ok(passed) = start.elapsed(self.clock)
            && self.meter.is_due(passed.as_secs())
        {
            let lines = self.meter.lines;
            let _ = write!(terminal, "desk: lines read: {lines}\r");
        }
    }
}

impl<'a, C: Clock, R: Read, W: Write + Drop> Read for Watched<'a, C, R, W> {
    ghost remaining = { λ watched. R.remaining watched.reader };

    fn read(&mut self, buffer: &mut [u8]) -> io::Result<usize> {
        let count = self.reader.read(buffer)?;
        self.note(&buffer[..count]);
        Ok(count)
    }
}
