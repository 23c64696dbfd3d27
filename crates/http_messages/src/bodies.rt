//! The body of a request, as it arrives.
ghost use Rattle.std.specs.Prelude.{◌≡◌, ◌↔◌, ℕ, List, IfOk, IsErrOf};
ghost use Rattle.http_messages.specs.Bodies.{Awaits, Exceeds, IsBody, Moves, NeverEnds, Reads, first_reading};
ghost use Rattle.http_messages.specs.Framing.{IsWithinLimit};
ghost use Rattle.http_messages.specs.declared.bodies.BodyFault.TheVariants.{Memory};

use crate::framing::BodyKind;
use crate::heads::MOST_FIELDS;
use crate::places::LONGEST_HEAD;
use commands::MOST_BYTES;
use http1::chunked::ChunkedDecoder;
use http1::decode::{Decoded, Decoder};
use httparse::spans::EMPTY_HEADER_SPAN;
use std::alloc::{AllocError, Global};
use std::marker::Model;

/// Reads the body of a request, in whatever pieces it arrives.
///
/// It holds at most 262,144 bytes: those of the body so far. Extensions of chunks and trailer fields have the limits of a head.
#[derive(Drop)]
pub struct BodyReader {
    decoder: Decoder,
    body: Vec<u8>,
}

/// How far a body was read.
#[derive(Clone, Copy, Debug, PartialEq, Eq)]
pub enum Progress {
    /// So many bytes were used. It goes on after them, and they are not to be passed again.
    More(usize),
    /// The body ends after so many bytes.
    Whole(usize),
}

/// Why a body is not read on. The reader is not to be used again.
#[derive(Clone, Copy, Debug, PartialEq, Eq)]
pub enum BodyFault {
    /// Out of memory.
    Memory,
    /// The chunks have more than 262,144 bytes: 413.
    TooLarge,
    /// What came is not the beginning of any body: 400.
    Malformed,
}

impl From<AllocError> for BodyFault {
    ghost from_gives = { λ _ fault. fault ≡ Memory };

    fn from(_error: AllocError) -> BodyFault {
        BodyFault::Memory
    }
}

/// What one step of a reader found.
#[derive(Clone, Copy)]
enum Step {
    /// So many bytes were used, and the others do not suffice.
    Waits(usize),
    /// So many bytes were used, at least one.
    Took(usize),
    /// The body ends after so many bytes.
    Ended(usize),
}

impl Model for BodyReader {
    ghost use Rattle.http_messages.specs.Bodies.{IsFit, Reading};

    ghost Value = { Reading };

    ghost view = { λ a. record { waits = a.decoder; body = a.body.items } };

    ghost invariant = { λ a. IsFit a.decoder a.body.items };
}

impl BodyReader {
    ghost use Rattle.http_messages.specs.Bodies.{Steps};

    /// A reader at the beginning of a body of this kind. It allocates nothing.
    pub fn new(alloc: Global, kind: BodyKind) -> BodyReader
        requires within { IsWithinLimit kind }
        ensures first { result ≡ first_reading kind }
        ensures waits { (stream body rest : List ℕ) →
            IsBody kind stream body rest ↔ Awaits result stream body rest }
    {
        let decoder = match kind {
            BodyKind::Sized(count) => Decoder::Length(count as u64),
            BodyKind::Chunked => Decoder::Chunked {
                chunks: ChunkedDecoder::new(LONGEST_HEAD),
                max_trailers_len: LONGEST_HEAD,
            },
        };
        BodyReader {
            decoder,
            body: Vec::new(alloc),
        }
    }

    /// Reads on in the bytes that follow those used so far.
    ///
    /// All are used, but for trailer fields that are not whole: these are to be passed again, with what comes after
    /// them. `TooLarge` comes as soon as more than 262,144 bytes of chunks came; `Malformed` where no body begins so,
    /// whatever follows.
    pub fn read(&mut self, input: &[u8]) -> Result<Progress, BodyFault>
        ensures reads { IfOk result (Reads self.old input.now self.new) }

        ensures too_large { IsErrOf result BodyFault.TooLarge → Exceeds self.old input.now }
        ensures malformed { IsErrOf result BodyFault.Malformed → NeverEnds self.old input.now }
    {
        let mut used = 0;
        loop {
            match self.step(&input[used..])? {
                Step::Waits(count) => return Ok(Progress::More(used + count)),
                Step::Took(count) => used += count,
                Step::Ended(count) => return Ok(Progress::Whole(used + count)),
            }
        }
    }

    /// The body so far: once it is whole, all of it.
    pub fn into_body(self) -> Vec<u8>
        ensures body { result.items ≡ self.body }
    {
        self.body
    }

    /// Reads the next piece of the body.
    fn step(&mut self, input: &[u8]) -> Result<Step, BodyFault>
        ensures steps { IfOk result (Steps self.old input.now self.new) }

        ensures too_large { IsErrOf result BodyFault.TooLarge → Exceeds self.old input.now }
        ensures malformed { IsErrOf result BodyFault.Malformed → NeverEnds self.old input.now }
    {
        let mut decoder = self.decoder;
        let mut trailers = [EMPTY_HEADER_SPAN; MOST_FIELDS];
        match decoder.decode(input, &mut trailers) {
            Ok(Decoded::NeedMore(count)) => {
                self.decoder = decoder;
                Ok(Step::Waits(count))
            }
            Ok(Decoded::Data(piece)) => {
                let body = &mut self.body;
                let data = piece.of(input);
                if data.len() > MOST_BYTES - body.len() {
                    return Err(BodyFault::TooLarge);
                }
                body.extend_from_slice(data)?;
                self.decoder = decoder;
                Ok(Step::Took(piece.end))
            }
            Ok(Decoded::End { len, trailers: _ }) => Ok(Step::Ended(len)),
            Err(_) => Err(BodyFault::Malformed),
        }
    }
}
