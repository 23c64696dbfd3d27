//! A writer for the tests that fails to flush.
use std::alloc::{AllocError, Global};
use std::io::{self, ErrorKind, Write};

/// Takes all bytes, and fails at each flush.
#[derive(Drop)]
pub struct Stuck(Vec<u8>);

impl Stuck {
    /// A writer with capacity for so many bytes.
    pub fn new(alloc: Global, room: usize) -> Result<Stuck, AllocError> {
        Ok(Stuck(Vec::with_capacity(alloc, room)?))
    }

    /// The bytes that were taken.
    pub fn taken(&self) -> &[u8] {
        self.0.as_slice()
    }
}

impl Write for Stuck {
    fn write(&mut self, bytes: &[u8]) -> io::Result<usize> {
        self.0.extend_from_slice(bytes)?;
        Ok(bytes.len())
    }

    fn flush(&mut self) -> io::Result<()> {
        Err(io::Error::from(ErrorKind::TimedOut))
    }
}
