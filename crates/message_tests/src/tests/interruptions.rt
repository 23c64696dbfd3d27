//! What no clause says: interruptions, and what failing readers and writers leave.
use saga_core::{ReadFailed, WriteFailed, read_some, send, send_all};
use std::alloc::{AllocError, Global};
use std::io::{self, ErrorKind, Read, Write};

/// Gives its bytes in pieces, each after an interruption. After the last byte it reports the end, or fails.
#[derive(Drop)]
struct Pieces<'a> {
    left: &'a [u8],
    is_cut: bool,
    is_interrupted: bool,
}

impl<'a> Pieces<'a> {
    fn new(left: &'a [u8], is_cut: bool) -> Pieces<'a> {
        Pieces {
            left,
            is_cut,
            is_interrupted: false,
        }
    }
}

impl Read for Pieces<'_> {
    fn read(&mut self, buffer: &mut [u8]) -> io::Result<usize> {
        self.is_interrupted = !self.is_interrupted;
        if self.is_interrupted {
            return Err(io::Error::from(ErrorKind::Interrupted));
        }
        if self.left.is_empty() && self.is_cut {
            return Err(io::Error::from(ErrorKind::TimedOut));
        }
        let count = self.left.len().min(buffer.len());
        buffer[..count].copy_from_slice(&self.left[..count]);
        self.left = &self.left[count..];
        Ok(count)
    }
}

/// Takes bytes one by one, each after an interruption, as many as it has room for; then it takes none, or fails.
#[derive(Drop)]
struct Sink {
    taken: Vec<u8>,
    room: usize,
    is_closed: bool,
    is_interrupted: bool,
    flushes: u32,
}

impl Sink {
    fn new(alloc: Global, room: usize, is_closed: bool) -> Result<Sink, AllocError> {
        Ok(Sink {
            taken: Vec::with_capacity(alloc, room)?,
            room,
            is_closed,
            is_interrupted: false,
            flushes: 0,
        })
    }
}

impl Write for Sink {
    fn write(&mut self, bytes: &[u8]) -> io::Result<usize> {
        self.is_interrupted = !self.is_interrupted;
        if self.is_interrupted {
            return Err(io::Error::from(ErrorKind::Interrupted));
        }
        if self.taken.len() == self.room && self.is_closed {
            return Err(io::Error::from(ErrorKind::TimedOut));
        }
        let count = bytes
            .len()
            .min(self.room.saturating_sub(self.taken.len()))
            .min(1);
        self.taken.extend_from_slice(&bytes[..count])?;
        Ok(count)
    }

    fn flush(&mut self) -> io::Result<()> {
        self.flushes = self.flushes.saturating_add(1);
        if self.is_closed {
            return Err(io::Error::from(ErrorKind::TimedOut));
        }
        Ok(())
    }
}

#[test]
fn bytes_are_read_behind_interruptions(rt: HostRuntime) {
    let mut buffer = [0u8; 4];
    let mut reader = Pieces::new(b"abcdef", false);
    assert!(rt; read_some(&mut reader, &mut buffer) == Ok(4) && buffer == *b"abcd");
    assert!(rt; read_some(&mut reader, &mut buffer) == Ok(2) && buffer == *b"efcd");
    assert!(rt; read_some(&mut reader, &mut buffer) == Ok(0));
    let mut reader = Pieces::new(b"", true);
    assert!(rt; read_some(&mut reader, &mut buffer) == Err(ReadFailed));
}

#[test]
fn bytes_are_written_whole_and_flushed_once(rt: HostRuntime) {
    let mut sink = Sink::new(rt.alloc(), 10, false).expect(&rt, "memory");
    assert!(rt;
        send(&mut sink, b"abcde") == Ok(()) && sink.taken.as_slice() == b"abcde".as_slice()
    );
    assert!(rt; sink.flushes == 1);
    assert!(rt;
        send_all(&mut sink, b"fg") == Ok(()) && sink.taken.as_slice() == b"abcdefg".as_slice()
    );
    assert!(rt; sink.flushes == 1);
}

#[test]
fn a_writer_without_room_has_taken_a_beginning(rt: HostRuntime) {
    for &is_closed in &[false, true] {
        let mut sink = Sink::new(rt.alloc(), 3, is_closed).expect(&rt, "memory");
        assert!(rt;
            send(&mut sink, b"abcde") == Err(WriteFailed),
            "{is_closed}"
        );
        assert!(rt; sink.taken.as_slice() == b"abc".as_slice(), "{is_closed}");
    }
    let mut sink = Sink::new(rt.alloc(), 9, true).expect(&rt, "memory");
    assert!(rt; send(&mut sink, b"abcde") == Err(WriteFailed) && sink.flushes == 1);
}
