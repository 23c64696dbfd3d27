//! What the line of a request says, from its message and its page.
ghost use Rattle.std.specs.Prelude.{◌≡◌, [], not, position, unwrap_or};
ghost use Rattle.std.specs.Char.{is_ascii_digit};
ghost use Rattle.http_live.specs.Requests.{Says, ask_of, digits_of, is_post, method_by, refusal_of, status_of};

use commands::{Agent, Key};
use http_conversations::{Arrived, Layout};
use http_log::Asked;
use http_messages::{AskedKind, Message, Request};

/// The name of the member of a body that reports a refusal's number.
const REFUSED: &[u8] = b"\"refused\":";

/// The status of a page, or `?` where there is none.
pub(crate) fn status_in(page: &[u8]) -> &[u8]
    ensures status { result.now ≡ status_of page.now }
{
    page.get(9..12).unwrap_or(b"?")
}

/// The number of the refusal that a page reports, in digits, if it reports one: its body has it after its name.
pub(crate) fn refusal_in(page: &[u8]) -> &[u8]
    ensures refusal { result.now ≡ refusal_of page.now }
{
    for at in 0..page.len() {
        if let Some(digits) = page[at..].strip_prefix(REFUSED) {
            return digits_in(digits);
        }
    }
    b""
}

/// The digits at the front of a text.
#[tactic(auto, using(crate::proofs::TextLemmas::end_is, crate::proofs::TextLemmas::end_within))]
fn digits_in(text: &[u8]) -> &[u8]
    ensures digits { result.now ≡ digits_of text.now }
{
    let end = end_of_digits(text).unwrap_or(text.len());
    &text[..end]
}

/// Where the digits at the front of a text end, if more follows.
fn end_of_digits(text: &[u8]) -> Option<usize>
    ensures end { result ≡ position (λ byte. not (is_ascii_digit byte)) text.now }
{
    text.iter().position(|byte| !byte.is_ascii_digit())
}

/// Under which agent and key a message asks for something to be carried out, if it does.
pub(crate) fn ask_of(message: &Message) -> Option<(Agent, Key)>
    ensures ask { result ≡ ask_of message.now }
{
    match message {
        Message::NoHead => None,
        Message::Asks(request) => {
            if is_post(message) {
                request.agent.zip(request.key)
            } else {
                None
            }
        }
    }
}

/// Whether a message asks for something to be carried out.
pub(crate) fn is_post(message: &Message) -> bool
    ensures post { result ≡ is_post message.now }
{
    match message {
        Message::NoHead => false,
        Message::Asks(request) => request.method.as_slice() == b"POST".as_slice(),
    }
}

/// What the line of a message says of it: of its page the status, or that it was lost, and the number of the refusal, if it
/// reports one; whether the page was a kept one, and how many milliseconds it took.
pub(crate) fn asked_by<'m>(
    arrived: &'m Arrived,
    status: &'m [u8],
    refused: &'m [u8],
    again: bool,
    millis: u64,
) -> Asked<'m>
    ensures says { Says arrived.now status.now refused.now again millis result }
{
    match &arrived.message {
        Message::NoHead => Asked {
            agent: b"",
            method: b"",
            target: b"",
            status,
            key: b"",
            again,
            refused,
            millis,
        },
        Message::Asks(request) => Asked {
            agent: agent_text(request),
            method: method_by(arrived.layout, request),
            target: request.target.as_slice(),
            status,
            key: key_text(request),
            again,
            refused,
            millis,
        },
    }
}

/// The method of a request in this layout, as it was sent.
fn method_by(layout: Layout, request: &Request) -> &[u8]
    ensures method { result.now ≡ method_by layout request.now }
{
    match layout {
        Layout::Wide(AskedKind::Head) => b"HEAD",
        Layout::Wide(AskedKind::Get | AskedKind::Post | AskedKind::Options | AskedKind::Other)
        | Layout::Profile
        | Layout::Denied(_)
        | Layout::Nothing => &request.method,
    }
}

/// The agent of a request, or nothing.
fn agent_text(request: &Request) -> &[u8]
    ensures agent { result.now ≡ unwrap_or request.now.agent [] }
{
    match &request.agent {
        Some(agent) => agent.as_str().as_bytes(),
        None => b"",
    }
}

/// The key of a request, or nothing.
fn key_text(request: &Request) -> &[u8]
    ensures key { result.now ≡ unwrap_or request.now.key [] }
{
    match &request.key {
        Some(key) => key.as_str().as_bytes(),
        None => b"",
    }
}
