//! Input that was read and is buffered.
ghost use Rattle.std.specs.Prelude.{◌≡◌, ◌<◌, ◌-◌, ◌^◌, [], position, true, false, IfOk, IfErr, OnOk};
ghost use Rattle.std.specs.Io.KnownBytes.{Consumes, IsAtEnd};
ghost use Rattle.recovery.specs.Reading.{is_line_feed, TakesLine, TakesPiece, to_come};
ghost use Rattle.saga_core.specs.StreamFaults.{IsOfReading};

use crate::runs::Line;
use saga_core::{ServeFault, read_some};
use std::alloc::{AllocError, Global};
use std::io::Read;
use std::marker::Model;

/// The most bytes that are read at once.
const CHUNK: usize = 8192;

/// The bytes that were read and are buffered, and how many more bytes may be read.
#[derive(Drop)]
pub(crate) struct Unread {
    /// The buffer into which bytes are read.
    chunk: Vec<u8>,
    /// Where the buffered bytes start in `chunk`.
    from: usize,
    /// Where the buffered bytes end in `chunk`.
    to: usize,
    left: u64,
}

impl Model for Unread {
    ghost use Rattle.std.specs.Prelude.{◌≤◌, ◌<◌, length, take, drop};
    ghost use Rattle.recovery.specs.Reading.{Unanswered};

    ghost Value = { Unanswered };

    ghost view = { λ a. record { waiting = drop a.from (take a.to a.chunk.items); left = a.left } };

    ghost invariant = { λ a.
        (a.from ≤ a.to) × (a.to ≤ length a.chunk.items) × (0 < length a.chunk.items) };
}

impl Unread {
    /// Nothing is buffered, and 2^64 - 1 bytes may be read.
    pub(crate) fn new(alloc: Global) -> Result<Unread, AllocError>
        ensures empty { IfOk result (λ unread. unread.waiting ≡ []) }
        ensures left { IfOk result (λ unread. unread.left ≡ 2 ^ 64 - 1) }
    {
        Ok(Unread {
            chunk: vec![in alloc; 0u8; CHUNK]?,
            from: 0,
            to: 0,
            left: u64::MAX,
        })
    }

    /// Takes the next line. Returns false if the input has ended.
    pub(crate) fn next_line<R: Read>(
        &mut self,
        reader: &mut R,
        line: &mut Line,
    ) -> Result<bool, ServeFault>
        ensures line { IfOk result (λ found. TakesLine
            (to_come self.old (R.remaining reader.old))
            (to_come self.new (R.remaining reader.new)) found line.new) }
        ensures end { IfOk result (λ found. found ≡ false → IsAtEnd (R.remaining reader.new)) }

        ensures fault { IfErr result IsOfReading }
    {
        line.clear();
        loop {
            if self.take_piece(line)? {
                return Ok(true);
            }
            if !self.fill(reader)? {
                return Ok(line.has_bytes());
            }
        }
    }

    /// Takes the buffered bytes before a line feed, or all of them. Returns whether there was a line feed.
    fn take_piece(&mut self, line: &mut Line) -> Result<bool, AllocError>
        ensures piece { IfOk result (λ found.
            TakesPiece found self.old.waiting self.new.waiting line.old line.new) }
        ensures left { self.new.left ≡ self.old.left }
    {
        let waiting = &self.chunk[self.from..self.to];
        match line_feed_in(waiting) {
            Some(at) => {
                line.add(&waiting[..at])?;
                self.from += at + 1;
                Ok(true)
            }
            None => {
                line.add(waiting)?;
                self.from = self.to;
                Ok(false)
            }
        }
    }

    /// Reads more bytes in place of the buffered ones. Returns false at the end of the input.
    fn fill<R: Read>(&mut self, reader: &mut R) -> Result<bool, ServeFault>
        ensures bytes { OnOk result
            (Consumes (R.remaining reader.old) (R.remaining reader.new) self.new.waiting) }
        ensures end { IfOk result (λ more. more ≡ false →
            (self.new.waiting ≡ []) × IsAtEnd (R.remaining reader.new)) }
        ensures fewer { IfOk result (λ more. more ≡ true → self.new.left < self.old.left) }

        ensures fault { IfErr result (λ fault. fault ≡ ServeFault.Read) }
    {
        if self.left < self.chunk.len() as u64 {
            return Err(ServeFault::Read);
        }
        let Ok(count) = read_some(reader, self.chunk.as_mut_slice()) else {
            return Err(ServeFault::Read);
        };
        self.from = 0;
        self.to = count;
        self.left -= count as u64;
        Ok(count > 0)
    }
}

/// The index of the first line feed.
fn line_feed_in(bytes: &[u8]) -> Option<usize>
    ensures { result ≡ position is_line_feed bytes.now }
{
    bytes.iter().position(|byte| *byte == b'\n')
}
