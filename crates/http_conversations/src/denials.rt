//! Pages of messages that are not read, and `100 Continue`.
ghost use Rattle.std.specs.Prelude.{◌≡◌, IfOk};
ghost use Rattle.std.specs.String.{string_bytes};
ghost use Rattle.http_conversations.specs.PageTexts.{denial_text, phrase_of, refusal_of};
ghost use Rattle.http_conversations.specs.PageTexts.{go_on};

use crate::lines::cache_lines;
use commands::Refusal;
use http_messages::Denial;
use http_pages::refusal_body;
use std::alloc::{AllocError, Global};

/// The page of a message that is not read. The connection is closed after it. The only fault is out of memory.
pub(crate) fn denial_page(alloc: Global, denial: Denial, date: &str) -> Result<String, AllocError>
    ensures bytes { IfOk result (λ page. string_bytes page ≡ denial_text denial date.now) }
{
    let code = denial.code();
    let phrase = phrase_of(denial);
    let lines = cache_lines();
    let body = refusal_body(alloc, &refusal_of(denial))?;
    let length = body.as_str().len();
    let text = body.as_str();
    format!(in alloc;
        "HTTP/1.1 {code} {phrase}\r\n\
        {lines}{date}Content-Length: {length}\r\n\
        Content-Type: application/json\r\n\
        Connection: close\r\n\r\n{text}"
    )
}

/// `100 Continue`: the body of a request may come.
pub(crate) fn go_on() -> &'static str
    ensures text { result.now ≡ go_on }
{
    "HTTP/1.1 100 Continue\r\n\r\n"
}

/// The refusal that is reported with a status.
fn refusal_of(denial: Denial) -> Refusal
    ensures refusal { result ≡ refusal_of denial }
{
    match denial {
        Denial::TooLarge => Refusal::TooLarge,
        Denial::BadHead | Denial::LongHead | Denial::OtherCoding | Denial::OtherVersion => {
            Refusal::BadHead
        }
    }
}

/// The phrase after the code (RFC 9110, section 15; RFC 6585, section 5).
fn phrase_of(denial: Denial) -> &'static str
    ensures phrase { result.now ≡ phrase_of denial }
{
    match denial {
        Denial::BadHead => "Bad Request",
        Denial::TooLarge => "Content Too Large",
        Denial::LongHead => "Request Header Fields Too Large",
        Denial::OtherCoding => "Not Implemented",
        Denial::OtherVersion => "HTTP Version Not Supported",
    }
}
