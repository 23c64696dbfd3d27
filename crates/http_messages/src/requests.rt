//! What a message asks, as the desk takes it; how long its body is; and the first message of bytes that are in memory.
ghost use Rattle.http_messages.specs.Fields.{length_of};
ghost use Rattle.std.specs.Prelude.{◌≡◌, IfOk};
ghost use Rattle.http_messages.specs.Reading.{IsFirst};

use crate::heads::Head;
use crate::places::decided_front;
use commands::{Agent, Key, Refusal};
use std::alloc::{AllocError, Global};

/// A request: what its head says, and its body.
#[derive(Debug, Drop)]
pub struct Request {
    /// The method as it was sent; one in small letters is another.
    pub method: Vec<u8>,
    /// The target as it was sent, which need be no path.
    pub target: Vec<u8>,
    /// The value of the one field `Host`; empty where there is none, or more than one.
    pub host: Vec<u8>,
    /// Who asks: the value of the one field `Desk-Agent`, where it is good, and no field `Desk-For` means another agent.
    pub agent: Option<Agent>,
    /// Whether there is no field `Desk-Agent` and no field `Desk-For`, good or not.
    pub is_unnamed: bool,
    /// The value of the one field `Desk-Key`, where it is good.
    pub key: Option<Key>,
    /// As many bytes as the head says; none if the head is refused.
    pub body: Vec<u8>,
    /// Whether a field asks to close the connection after the answer.
    pub closes: bool,
    /// The refusal of the head, if it is refused.
    pub complaint: Option<Refusal>,
    /// Whether the method is `HEAD`, whose answer has no body.
    pub is_head: bool,
}

/// A message of a stream.
#[derive(Debug, Drop)]
pub enum Message {
    /// A decided prefix that is no head.
    NoHead,
    /// A request, whole.
    Asks(Request),
}

/// The length of a body, as a head gives it.
#[derive(Clone, Copy)]
pub(crate) enum Length {
    /// No length is given.
    Untold,
    /// The body has so many bytes.
    Bytes(usize),
    /// Two lengths are given, or a malformed one.
    Bad,
}

/// The length that one to nine digits spell.
pub(crate) fn length_in(text: &[u8]) -> Option<usize>
    ensures digits { result ≡ length_of text.now }
{
    if text.is_empty() || text.len() > 9 {
        return None;
    }
    let mut length = 0;
    for byte in text {
        if !byte.is_ascii_digit() {
            return None;
        }
        length = 10 * length + usize::from(*byte - b'0');
    }
    Some(length)
}

/// The first message of these bytes, with how many bytes it has; `None` if none is whole yet.
///
/// It takes memory for the parts of a request, and fails for no other reason.
pub fn first_message(alloc: Global, bytes: &[u8]) -> Result<Option<(Message, usize)>, AllocError>
    ensures first { IfOk result (IsFirst bytes.now) }
{
    let Some(end) = decided_front(bytes) else {
        return Ok(None);
    };
    let front = &bytes[..end];
    let Ok(head) = Head::read(front) else {
        return Ok(Some((Message::NoHead, end)));
    };
    let count = head.body_length();
    if bytes.len() - end < count {
        return Ok(None);
    }
    let whole = end + count;
    let body = bytes[end..whole].to_vec(alloc)?;
    let request = head.request(alloc, body)?;
    Ok(Some((Message::Asks(request), whole)))
}
