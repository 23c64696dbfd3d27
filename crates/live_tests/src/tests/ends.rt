//! The two ends of a connection: they give and take pieces of a random size, or none yet, and may fail.
use crate::tests::dice::Dice;
use desk_http::Door;
use std::cell::RefCell;
use std::io::{self, ErrorKind, Read, Write};

/// What was written to each slot.
pub type Notes = RefCell<Vec<Vec<u8>>>;

/// Gives its bytes in pieces. After the last byte it reports the end, or fails.
#[derive(Drop)]
pub struct Pieces<'a> {
    /// By which door its peer comes.
    pub door: Door,
    pub left: &'a [u8],
    /// How many bytes a read gives, at most.
    pub step: u64,
    pub fails: bool,
    pub dice: Dice,
}

impl Read for Pieces<'_> {
    fn read(&mut self, buffer: &mut [u8]) -> io::Result<usize> {
        match self.dice.roll(4) {
            0 => return Err(io::Error::from(ErrorKind::WouldBlock)),
            1 => return Err(io::Error::from(ErrorKind::Interrupted)),
            _ => {}
        }
        if self.left.is_empty() && self.fails {
            return Err(io::Error::from(ErrorKind::ConnectionReset));
        }
        let most = self.dice.roll(self.step).saturating_add(1) as usize;
        let count = most.min(self.left.len()).min(buffer.len());
        buffer[..count].copy_from_slice(&self.left[..count]);
        self.left = &self.left[count..];
        Ok(count)
    }
}

/// Takes bytes in pieces, and notes them. It fails at the first byte for which it has no room.
#[derive(Drop)]
pub struct Sink<'a> {
    pub slot: usize,
    pub notes: &'a Notes,
    pub room: usize,
    /// How many bytes a write takes, at most.
    pub step: u64,
    pub dice: Dice,
}

impl Sink<'_> {
    /// Notes these bytes.
    fn note(&mut self, bytes: &[u8]) -> io::Result<()> {
        let Ok(mut notes) = self.notes.try_borrow_mut() else {
            return Err(io::Error::from(ErrorKind::Other));
        };
        if let Some(taken) = notes.get_mut(self.slot) {
            taken.extend_from_slice(bytes)?;
        }
        self.room = self.room.saturating_sub(bytes.len());
        Ok(())
    }
}

impl Write for Sink<'_> {
    fn write(&mut self, bytes: &[u8]) -> io::Result<usize> {
        match self.dice.roll(4) {
            0 => return Err(io::Error::from(ErrorKind::WouldBlock)),
            1 => return Err(io::Error::from(ErrorKind::Interrupted)),
            _ => {}
        }
        if self.room == 0 {
            return Err(io::Error::from(ErrorKind::BrokenPipe));
        }
        let most = self.dice.roll(self.step).saturating_add(1) as usize;
        let count = most.min(self.room).min(bytes.len());
        self.note(&bytes[..count])?;
        Ok(count)
    }

    fn flush(&mut self) -> io::Result<()> {
        Ok(())
    }
}
