//! The text of a message in a test.
use http_messages::{AskedKind, WideMessage, WideRequest};
use std::alloc::{AllocError, Global};

/// The word for what a request asks for.
fn kind(kind: AskedKind) -> &'static str {
    match kind {
        AskedKind::Get => "get",
        AskedKind::Head => "head",
        AskedKind::Post => "post",
        AskedKind::Options => "options",
        AskedKind::Other => "other",
    }
}

/// The text of these bytes.
fn text(bytes: &[u8]) -> &str {
    match std::str::from_utf8(bytes) {
        Ok(text) => text,
        Err(_) => "no text",
    }
}

/// What a request asks, with the host, agent, key, body, and whether the connection ends.
fn asked(alloc: Global, asks: &WideRequest) -> Result<String, AllocError> {
    let request = &asks.request;
    let kind = kind(asks.kind);
    let method = text(&request.method);
    let target = text(&request.target);
    let host = text(&request.host);
    let agent = request.agent.as_ref().map_or("-", |agent| agent.as_str());
    let key = request.key.as_ref().map_or("-", |key| key.as_str());
    let body = text(&request.body);
    let end = if request.closes { "close" } else { "open" };
    format!(in alloc; "{kind} {method} {target} {host} {agent} {key} {body} {end}")
}

/// The message with how many bytes it has; `-` where there is none.
pub(super) fn told(
    alloc: Global,
    found: &Option<(WideMessage, usize)>,
) -> Result<String, AllocError> {
    match found {
        None => format!(in alloc; "-"),
        Some((WideMessage::NoMethod, _)) => format!(in alloc; "ended"),
        Some((WideMessage::Denied(denial), _)) => {
            let code = denial.code();
            format!(in alloc; "{code}")
        }
        Some((WideMessage::Asks(asks), count)) => {
            let asked = asked(alloc, asks)?;
            format!(in alloc; "{asked} {count}")
        }
    }
}
