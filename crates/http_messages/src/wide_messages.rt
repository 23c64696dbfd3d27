//! The first message of bytes as libraries, proxies and pools write HTTP, and when `100 Continue` is sent.
ghost use Rattle.std.specs.Prelude.{◌≡◌, IfOk, IsTrue, false};
ghost use Rattle.http_messages.specs.Places.{IsToldAt};
ghost use Rattle.http_messages.specs.Wide.{begins_no_method, has_no_method};
ghost use Rattle.http_messages.specs.WideReading.{IsDue, IsFirstWide, has_body};

use crate::asked::{AskedKind, asked_kind};
use crate::bodies::{BodyFault, BodyReader, Progress};
use crate::denials::Denial;
use crate::framing::{BodyKind, Unframed};
use crate::heads::Head;
use crate::places::{LONGEST_HEAD, decided_front};
use crate::requests::Request;
use crate::wide_heads::denial_for;
use httparse::is_method_token;
use std::alloc::{AllocError, Global};

/// A message of a stream.
#[derive(Debug, Drop)]
pub enum WideMessage {
    /// A byte that begins no method: the connection is ended at once, without a page.
    NoMethod,
    /// A message that is not read: a page of this status, and the connection ends.
    Denied(Denial),
    /// A request, whole.
    Asks(WideRequest),
}

/// A request, and the request of the profile that stands for it.
#[derive(Debug, Drop)]
pub struct WideRequest {
    /// What it asks for. HEAD gets the page of `request` without its body.
    pub kind: AskedKind,
    /// The request of the profile: GET for HEAD, a path for a target in absolute form, and the body without chunks.
    pub request: Request,
}

/// The first message of these bytes, with how many bytes it has; `None` if none is whole yet.
///
/// Of a message that is no request all bytes count, since the connection ends. The only fault is out of memory.
pub fn first_wide_message(
    alloc: Global,
    bytes: &[u8],
) -> Result<Option<(WideMessage, usize)>, AllocError>
    ensures first { IfOk result (IsFirstWide bytes.now) }
{
    if has_no_method(bytes) {
        return Ok(Some((WideMessage::NoMethod, bytes.len())));
    }
    match decided_front(bytes) {
        Some(end) => at_front(alloc, bytes, end),
        None => Ok(None),
    }
}

/// The first message, where so many bytes are its decided prefix.
fn at_front(
    alloc: Global,
    bytes: &[u8],
    end: usize,
) -> Result<Option<(WideMessage, usize)>, AllocError>
    requires method { has_no_method bytes.now ≡ false }
    requires told { IsToldAt bytes.now end }
    ensures first { IfOk result (IsFirstWide bytes.now) }
{
    let front = &bytes[..end];
    let head = match Head::read(front) {
        Ok(head) => head,
        Err(why) => return Ok(Some((WideMessage::Denied(denial_for(front, why)), bytes.len()))),
    };
    let kind = match head.kind() {
        Ok(kind) => kind,
        Err(why) => return Ok(Some((WideMessage::Denied(Denial::of(why)), bytes.len()))),
    };
    let mut reader = BodyReader::new(alloc, kind);
    match reader.read(&bytes[end..]) {
        Ok(Progress::More(_)) => Ok(None),
        Ok(Progress::Whole(count)) => {
            let asks = WideRequest {
                kind: asked_kind(head.method()),
                request: head.plain_request(alloc, reader.into_body())?,
            };
            Ok(Some((WideMessage::Asks(asks), end + count)))
        }
        Err(BodyFault::Memory) => Err(AllocError),
        Err(BodyFault::TooLarge) => Ok(Some((WideMessage::Denied(Denial::TooLarge), bytes.len()))),
        Err(BodyFault::Malformed) => Ok(Some((WideMessage::Denied(Denial::BadHead), bytes.len()))),
    }
}

/// Whether the bytes begin with no method, as far as a head may reach.
fn has_no_method(bytes: &[u8]) -> bool
    ensures none { result ≡ has_no_method bytes.now }
{
    begins_no_method(&bytes[..bytes.len().min(LONGEST_HEAD)])
}

/// Whether the first byte that is no line end begins no method.
fn begins_no_method(bytes: &[u8]) -> bool
    ensures none { result ≡ begins_no_method bytes.now }
{
    let mut left = bytes;
    while let [first, rest @ ..] = left {
        if *first != b'\r' && *first != b'\n' {
            return !is_method_token(*first);
        }
        left = rest;
    }
    false
}

/// Whether `100 Continue` is to be sent now: a head of HTTP/1.1 that is read asks for it, nothing of its body came, which
/// is not empty, and it was not sent for this head before (RFC 9110, section 10.1.1).
pub fn go_on_is_due(bytes: &[u8], was_sent: bool) -> bool
    ensures due { IsTrue result → IsDue bytes.now }
    ensures once { IsTrue result → was_sent ≡ false }
    ensures all { IsDue bytes.now → was_sent ≡ false → IsTrue result }
{
    if was_sent || has_no_method(bytes) {
        return false;
    }
    let Some(end) = decided_front(bytes) else {
        return false;
    };
    if end < bytes.len() {
        return false;
    }
    match Head::read(bytes) {
        Ok(head) => head.expects() && has_body(head.kind()),
        Err(_) => false,
    }
}

/// Whether a body is framed that is not empty.
fn has_body(kind: Result<BodyKind, Unframed>) -> bool
    ensures body { result ≡ has_body kind }
{
    match kind {
        Ok(BodyKind::Sized(count)) => count > 0,
        Ok(BodyKind::Chunked) => true,
        Err(_) => false,
    }
}
