//! The exchange with the desk: one request, and the page that answers it.
ghost use Rattle.std.specs.Prelude.{◌≡◌, ◌≢◌, Err, IfOk, IfErr, IsOk, true};
ghost use Rattle.std.specs.Io.KnownBytes.{Appends};
ghost use Rattle.saga_core.specs.Written.{WroteFront};
ghost use Rattle.http_pages.specs.Answers.{HasNoAnswer, IsAnswer};
ghost use Rattle.http_pages.specs.Exchanges.{Received};
ghost use Rattle.http_pages.specs.Requests.{is_target, request_text};
ghost use Rattle.http_pages.specs.declared.asking.Unanswered.TheVariants.{Memory};

use crate::answer_pages::{Answer, answer_in};
use saga_core::send;
use std::alloc::{AllocError, Global};
use std::io::{ErrorKind, Read, Write};

/// Why there is no answer.
#[derive(Clone, Copy, Debug, PartialEq, Eq)]
pub enum Unanswered {
    /// Out of memory.
    Memory,
    /// The request could not be sent, or the connection failed.
    Lost,
    /// What came is not a whole page of an answer.
    Unread,
}

impl From<AllocError> for Unanswered {
    ghost from_gives = { λ _ fault. fault ≡ Memory };

    fn from(_error: AllocError) -> Unanswered {
        Unanswered::Memory
    }
}

/// Whether a text may be sent as a target: each byte of it is a visible character of ASCII.
pub fn is_target(text: &str) -> bool
    ensures target { result ≡ is_target text.now }
{
    text.as_bytes().iter().all(|byte| byte.is_ascii_graphic())
}

/// Asks the house for a target, and reads to the end of what comes. A failed read or write is `Lost`, and what is not the
/// whole page of an answer, and nothing else, is `Unread`.
pub fn ask<R: Read, W: Write>(
    alloc: Global,
    target: &str,
    reader: &mut R,
    writer: &mut W,
) -> Result<Answer, Unanswered>
    requires target { is_target target.now ≡ true }

    ensures sent { IsOk result →
        Appends (W.contents writer.old) (W.contents writer.new) (request_text target.now) }
    ensures answer { IfOk result (λ answer.
        Received (R.remaining reader.old) (R.remaining reader.new) (λ came. IsAnswer came answer)) }

    ensures unread { result ≡ Err Unanswered.Unread →
        Received (R.remaining reader.old) (R.remaining reader.new) HasNoAnswer }

    ensures front { WroteFront (W.contents writer.old) (W.contents writer.new)
        (request_text target.now) }
{
    let request = format!(in alloc;
        "GET {target} HTTP/1.1\r\nHost: desk\r\nConnection: close\r\n\r\n"
    )?;
    if send(writer, request.as_bytes()).is_err() {
        return Err(Unanswered::Lost);
    }
    let came = receive(alloc, reader)?;
    answer_in(alloc, came.as_slice())
}

/// All that comes.
fn receive<R: Read>(alloc: Global, reader: &mut R) -> Result<Vec<u8>, Unanswered>
    ensures came { IfOk result (λ bytes.
        Received (R.remaining reader.old) (R.remaining reader.new) (λ came. came ≡ bytes.items)) }
    ensures fault { IfErr result (λ fault. fault ≢ Unanswered.Unread) }
{
    let mut came = Vec::new(alloc);
    match reader.read_to_end(&mut came) {
        Ok(_) => Ok(came),
        Err(error) if error.kind() == ErrorKind::OutOfMemory => Err(Unanswered::Memory),
        Err(_) => Err(Unanswered::Lost),
    }
}
