//! A body that is read in a test, piece after piece.
use super::known;
use http_messages::{BodyFault, BodyReader, Progress, body_kind};
use std::alloc::{AllocError, Global};
use std::process::Abort;

/// What is expected of a body.
#[derive(Clone, Copy)]
pub(super) enum Expected<'a> {
    /// It is whole, and stands for these bytes; the others come after it.
    Body(&'a [u8], &'a [u8]),
    /// It is whole, with so many bytes, and nothing comes after it.
    Long(usize),
    /// It is not whole.
    Part,
    /// It is not read on.
    Fault(BodyFault),
}

/// A body of which some pieces came.
#[derive(Drop)]
pub(super) struct Reading {
    reader: BodyReader,
    /// What came and was not used.
    waiting: Vec<u8>,
    /// Whether the body is whole, or why it is not read on.
    outcome: Result<bool, BodyFault>,
}

impl Reading {
    /// Nothing came of the body of a POST with this field.
    pub(super) fn begin(rt: &impl Abort, alloc: Global, field: (&str, &str)) -> Reading {
        let kind = body_kind(b"POST", 1, &known(&[field])).expect(rt, "framed");
        let mut reading = Reading {
            reader: BodyReader::new(alloc, kind),
            waiting: Vec::new(alloc),
            outcome: Ok(false),
        };
        reading.take(b"");
        reading
    }

    /// These pieces came.
    pub(super) fn of(
        rt: &impl Abort,
        alloc: Global,
        field: (&str, &str),
        pieces: &[&[u8]],
    ) -> Reading {
        let mut reading = Reading::begin(rt, alloc, field);
        for piece in pieces {
            reading.take(piece);
        }
        reading
    }

    /// One more piece comes. After the body, or a fault, it only waits.
    pub(super) fn take(&mut self, piece: &[u8]) {
        if self.waiting.extend_from_slice(piece).is_err() {
            self.outcome = Err(BodyFault::Memory);
        }
        if self.outcome == Ok(false) {
            self.outcome = self.read();
        }
    }

    fn read(&mut self) -> Result<bool, BodyFault> {
        match self.reader.read(&self.waiting)? {
            Progress::More(count) => {
                self.waiting.drain(..count);
                Ok(false)
            }
            Progress::Whole(count) => {
                self.waiting.drain(..count);
                Ok(true)
            }
        }
    }

    /// Whether this is what was read. The only fault is that memory ran out for it.
    pub(super) fn is(self, expected: Expected<'_>) -> Result<bool, AllocError> {
        if self.outcome == Err(BodyFault::Memory) {
            return Err(AllocError);
        }
        Ok(match expected {
            Expected::Body(body, rest) => {
                self.outcome == Ok(true)
                    && self.waiting.as_slice() == rest
                    && self.reader.into_body().as_slice() == body
            }
            Expected::Long(count) => {
                self.outcome == Ok(true)
                    && self.waiting.is_empty()
                    && self.reader.into_body().len() == count
            }
            Expected::Part => self.outcome == Ok(false),
            Expected::Fault(fault) => self.outcome == Err(fault),
        })
    }
}
