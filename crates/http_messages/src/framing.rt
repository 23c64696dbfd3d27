//! How the body of a request is framed.
ghost use Rattle.std.specs.Prelude.{◌≡◌, IfOk};
ghost use Rattle.http_messages.specs.Framing.{IsWithinLimit, body_kind_by};

use commands::MOST_BYTES;
use http1::fields::KnownFields;
use http1::framing::{Framing, MethodKind, request_framing};

/// How the body of a request is framed (RFC 9112, section 6.3).
#[derive(Clone, Copy, Debug, PartialEq, Eq)]
pub enum BodyKind {
    /// It has so many bytes, at most 262,144; none where the head has no framing field.
    Sized(usize),
    /// It comes in chunks.
    Chunked,
}

/// Why the body of a request is not read. The connection ends after the page.
#[derive(Clone, Copy, Debug, PartialEq, Eq)]
pub enum Unframed {
    /// Two framing fields, a malformed one, a coding in HTTP/1.0, or content for `CONNECT`: 400.
    BadHead,
    /// A coding other than `chunked`: 501.
    OtherCoding,
    /// The length is more than 262,144 bytes: 413.
    TooLarge,
}

/// How the body of a request of HTTP/1.`minor` with this method and these fields is framed.
///
/// Looked for in this order: a second framing field, another coding, and what is wrong with the one framing field.
pub fn body_kind(method: &[u8], minor: u8, fields: &KnownFields) -> Result<BodyKind, Unframed>
    ensures kind { result ≡ body_kind_by method.now minor fields.now }
    ensures within { IfOk result IsWithinLimit }
{
    if fields.framing_fields > 1 {
        return Err(Unframed::BadHead);
    }
    if fields.other_coding {
        return Err(Unframed::OtherCoding);
    }
    match request_framing(MethodKind::of(method), minor, fields) {
        Ok(Framing::NoBody) => Ok(BodyKind::Sized(0)),
        Ok(Framing::Length(count)) if count > MOST_BYTES as u64 => Err(Unframed::TooLarge),
        Ok(Framing::Length(count)) => Ok(BodyKind::Sized(count as usize)),
        Ok(Framing::Chunked) => Ok(BodyKind::Chunked),
        Ok(Framing::UntilClose) | Err(_) => Err(Unframed::BadHead),
    }
}
