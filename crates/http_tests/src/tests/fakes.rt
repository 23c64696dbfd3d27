//! A writer and a reader for the tests: the reader fails if the writer was not given a page before.
use failing_streams::Pieces;
use std::alloc::{AllocError, Global};
use std::cell::Cell;
use std::io::{self, ErrorKind, Read, Write};

/// Takes all bytes, and reports how many were flushed.
#[derive(Drop)]
pub struct Telling<'a> {
    taken: Vec<u8>,
    flushed: &'a Cell<usize>,
}

impl<'a> Telling<'a> {
    /// A writer with capacity for so many bytes.
    pub fn new(
        alloc: Global,
        room: usize,
        flushed: &'a Cell<usize>,
    ) -> Result<Telling<'a>, AllocError> {
        let taken = Vec::with_capacity(alloc, room)?;
        Ok(Telling { taken, flushed })
    }

    /// The bytes that were taken.
    pub fn taken(&self) -> &[u8] {
        self.taken.as_slice()
    }
}

impl<'a> Write for Telling<'a> {
    fn write(&mut self, bytes: &[u8]) -> io::Result<usize> {
        self.taken.extend_from_slice(bytes)?;
        Ok(bytes.len())
    }

    fn flush(&mut self) -> io::Result<()> {
        self.flushed.set(self.taken.len());
        Ok(())
    }
}

/// Returns two requests in pieces. It fails if the second one is read before the first page was flushed.
#[derive(Drop)]
pub struct Waiting<'a> {
    first: Pieces<'a>,
    second: Pieces<'a>,
    flushed: &'a Cell<usize>,
    /// The length of the first page.
    page: usize,
}

impl<'a> Waiting<'a> {
    pub fn new(
        first: Pieces<'a>,
        second: Pieces<'a>,
        flushed: &'a Cell<usize>,
        page: usize,
    ) -> Waiting<'a> {
        Waiting {
            first,
            second,
            flushed,
            page,
        }
    }
}

impl<'a> Read for Waiting<'a> {
    fn read(&mut self, buffer: &mut [u8]) -> io::Result<usize> {
        if !self.first.is_empty() {
            return self.first.read(buffer);
        }
        if self.flushed.get() < self.page {
            return Err(io::Error::from(ErrorKind::TimedOut));
        }
        self.second.read(buffer)
    }
}
