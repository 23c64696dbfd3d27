//! A reader that returns its bytes in pieces.
use std::io::{self, ErrorKind, Read};

/// Returns its bytes in pieces, each after an interruption. After the last byte it reports the end, or fails.
#[derive(Drop)]
pub struct Pieces<'a> {
    left: &'a [u8],
    /// How many bytes a read returns, at most.
    step: usize,
    is_cut: bool,
    is_interrupted: bool,
}

impl<'a> Pieces<'a> {
    /// All the bytes, and then the end.
    pub fn of(bytes: &'a [u8], step: usize) -> Pieces<'a> {
        Pieces {
            left: bytes,
            step,
            is_cut: false,
            is_interrupted: false,
        }
    }

    /// All the bytes, and then a failure.
    pub fn cut(bytes: &'a [u8], step: usize) -> Pieces<'a> {
        Pieces {
            left: bytes,
            step,
            is_cut: true,
            is_interrupted: false,
        }
    }

    /// How many bytes are left.
    pub fn len(&self) -> usize {
        self.left.len()
    }

    /// Whether none is left.
    pub fn is_empty(&self) -> bool {
        self.left.is_empty()
    }

    /// How many bytes a read returns, at most.
    pub fn step(&self) -> usize {
        self.step
    }
}

impl<'a> Read for Pieces<'a> {
    fn read(&mut self, buffer: &mut [u8]) -> io::Result<usize> {
        self.is_interrupted = !self.is_interrupted;
        if self.is_interrupted {
            return Err(io::Error::from(ErrorKind::Interrupted));
        }
        if self.left.is_empty() && self.is_cut {
            return Err(io::Error::from(ErrorKind::TimedOut));
        }
        let count = self.step.min(self.left.len()).min(buffer.len());
        buffer[..count].copy_from_slice(&self.left[..count]);
        self.left = &self.left[count..];
        Ok(count)
    }
}
