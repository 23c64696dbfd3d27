//! A writer that takes bytes in pieces, up to a failure.
use std::alloc::{AllocError, Global};
use std::io::{self, ErrorKind, Write};

/// Takes bytes in pieces, each after an interruption, and fails at the first byte for which it has no room.
#[derive(Drop)]
pub struct Sink {
    taken: Vec<u8>,
    /// How many bytes a write takes, at most.
    step: usize,
    room: usize,
    is_interrupted: bool,
    wants_flushes: bool,
    is_flushed: bool,
}

impl Sink {
    /// Takes so many bytes and no more. It allocates nothing later.
    pub fn new(alloc: Global, step: usize, room: usize) -> Result<Sink, AllocError> {
        Ok(Sink {
            taken: Vec::with_capacity(alloc, room)?,
            step,
            room,
            is_interrupted: false,
            wants_flushes: false,
            is_flushed: true,
        })
    }

    /// The same. It also fails at a byte that follows a line feed if the line was not flushed.
    pub fn of_flushed_lines(alloc: Global, step: usize, room: usize) -> Result<Sink, AllocError> {
        let mut sink = Sink::new(alloc, step, room)?;
        sink.wants_flushes = true;
        Ok(sink)
    }

    /// What it took.
    pub fn taken(&self) -> &[u8] {
        self.taken.as_slice()
    }
}

impl Write for Sink {
    fn write(&mut self, bytes: &[u8]) -> io::Result<usize> {
        self.is_interrupted = !self.is_interrupted;
        if self.is_interrupted {
            return Err(io::Error::from(ErrorKind::Interrupted));
        }
        let room = self.room.saturating_sub(self.taken.len());
        let count = self.step.min(bytes.len()).min(room);
        if count == 0 || !self.is_flushed {
            return Err(io::Error::from(ErrorKind::TimedOut));
        }
        self.taken.extend_from_slice(&bytes[..count])?;
        self.is_flushed = !self.wants_flushes || self.taken.last() != Some(&b'\n');
        Ok(count)
    }

    fn flush(&mut self) -> io::Result<()> {
        self.is_flushed = true;
        Ok(())
    }
}
