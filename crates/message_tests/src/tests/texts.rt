//! The text of messages in a test.
use commands::Refusal;
use http_messages::{Message, Request, first_message};
use saga_core::{ReadFailed, read_some};
use std::alloc::{AllocError, Global};
use std::io::Read;
use std::str;

/// The messages up to the end or a fault, each with a semicolon, and the fault. What was read before waits, and more is read
/// only where no message is whole.
pub(super) fn told<R: Read>(
    alloc: Global,
    waiting: &mut Vec<u8>,
    reader: &mut R,
) -> Result<String, AllocError> {
    let mut text = String::new(alloc);
    let mut chunk = vec![in alloc; 0u8; 8192]?;
    for _ in 0..u64::MAX {
        match first_message(alloc, waiting)? {
            Some((message, count)) => {
                tell(alloc, &mut text, &message)?;
                waiting.drain(..count.min(waiting.len()));
            }
            None => match read_some(reader, chunk.as_mut_slice()) {
                Ok(0) => return Ok(text),
                Ok(count) => waiting.extend_from_slice(&chunk[..count])?,
                Err(ReadFailed) => {
                    text.push_str("Read")?;
                    return Ok(text);
                }
            },
        }
    }
    Ok(text)
}

/// `none;`, or `GET /stock ann k1 0 open;`: method, target, agent, key, the bytes of the body, what it asks for.
fn tell(alloc: Global, text: &mut String, message: &Message) -> Result<(), AllocError> {
    match message {
        Message::NoHead => text.push_str("none;"),
        Message::Asks(request) => tell_request(alloc, text, request),
    }
}

fn tell_request(alloc: Global, text: &mut String, request: &Request) -> Result<(), AllocError> {
    let method = text_of(&request.method);
    let target = text_of(&request.target);
    let agent = request.agent.as_ref().map_or("-", |agent| agent.as_str());
    let key = request.key.as_ref().map_or("-", |key| key.as_str());
    let body = text_of(&request.body);
    let closes = if request.closes { "close" } else { "open" };
    let head = if request.is_head { " head" } else { "" };
    let refusal = refusal(request.complaint);
    let line = format!(in alloc; "{method} {target} {agent} {key} {body} {closes}{head}{refusal}")?;
    text.push_str(&line)
}

/// The number of a refusal, and what ends the text of a message.
fn refusal(complaint: Option<Refusal>) -> &'static str {
    match complaint {
        None => ";",
        Some(Refusal::BadHead) => " 1;",
        Some(Refusal::TooLarge) => " 15;",
        Some(Refusal::NoLength) => " 19;",
        Some(_) => " another;",
    }
}

/// The text of these bytes.
fn text_of(bytes: &[u8]) -> &str {
    match str::from_utf8(bytes) {
        Ok(text) => text,
        Err(_) => "no text",
    }
}
