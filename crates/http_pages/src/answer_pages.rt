//! What answers a request for a report.
ghost use Rattle.std.specs.Prelude.{◌≡◌, ◌≢◌, ◌↔◌, length, Err, IfOk, IsTrue, Ok};
ghost use Rattle.http_pages.specs.Answers.{absence_text, FindsHead, FindsPage, HasNoAnswer, IsAnswer};

use crate::asking::Unanswered;
use crate::bodies::refusal_body;
use commands::Refusal;
use http1::fields::KnownFields;
use http1::framing::{Framing, FramingError, MethodKind, response_framing};
use httparse::Status;
use httparse::spans::{EMPTY_HEADER_SPAN, parse_response};
use std::alloc::Global;

/// How many fields a page may have.
const MOST_FIELDS: usize = 32;

/// The status of a report, and that of an absent journey.
const FINE: u16 = 200;

const NOT_FOUND: u16 = 404;

/// What a desk answers.
#[derive(Debug, Drop)]
pub enum Answer {
    /// The report, as the command prints it.
    Report(Vec<u8>),
    /// There is no such journey.
    NoJourney,
}

/// A page that is whole.
#[derive(Clone, Copy)]
struct Page<'a> {
    status: u16,
    body: &'a [u8],
}

/// The head of a page.
#[derive(Clone, Copy)]
struct Head {
    status: u16,
    /// Where its body ends.
    framing: Result<Framing, FramingError>,
    /// How many bytes it has.
    len: usize,
}

/// The answer that these bytes are. Errors are out of memory, and that they are none.
pub(crate) fn answer_in(alloc: Global, came: &[u8]) -> Result<Answer, Unanswered>
    ensures answer { IfOk result (IsAnswer came.now) }
    ensures none { result ≡ Err Unanswered.Unread → HasNoAnswer came.now }
{
    let Some(page) = page_in(came) else {
        return Err(Unanswered::Unread);
    };
    if page.status == FINE {
        return Ok(Answer::Report(page.body.to_vec(alloc)?));
    }
    if page.status == NOT_FOUND {
        return absence_in(alloc, page.body);
    }
    Err(Unanswered::Unread)
}

/// The answer that there is no such journey, if a body is that of its refusal. Errors as above.
fn absence_in(alloc: Global, body: &[u8]) -> Result<Answer, Unanswered>
    ensures answer { IfOk result (λ answer. (answer ≡ Answer.NoJourney) × (body.now ≡ absence_text)) }
    ensures none { result ≡ Err Unanswered.Unread → body.now ≢ absence_text }
{
    let refused = refusal_body(alloc, &Refusal::NoJourney)?;
    if body == refused.as_bytes() {
        return Ok(Answer::NoJourney);
    }
    Err(Unanswered::Unread)
}

/// The page that these bytes are, if they are one whole page and nothing else.
fn page_in(came: &[u8]) -> Option<Page<'_>>
    ensures page { FindsPage came.now result }
{
    let head = head_in(came)?;
    let body = &came[head.len..];
    if !is_whole(head.framing, body) {
        return None;
    }
    Some(Page {
        status: head.status,
        body,
    })
}

/// Whether a body is as long as its framing says.
fn is_whole(framing: Result<Framing, FramingError>, body: &[u8]) -> bool
    ensures whole { IsTrue result ↔ (framing ≡ Ok (Framing.Length (length body.now))) }
{
    matches!(framing, Ok(Framing::Length(length)) if length == body.len() as u64)
}

/// The head with which these bytes begin, if they begin with one of few enough fields.
fn head_in(came: &[u8]) -> Option<Head>
    ensures head { FindsHead came.now result }
{
    let mut fields = [EMPTY_HEADER_SPAN; MOST_FIELDS];
    match parse_response(came, &mut fields) {
        Ok(Status::Complete(spans)) => {
            let known = KnownFields::from_spans(came, &fields[..spans.headers]);
            Some(Head {
                status: spans.code,
                framing: response_framing(MethodKind::Other, spans.code, spans.version, &known),
                len: spans.len,
            })
        }
        Ok(Status::Partial) | Err(_) => None,
    }
}
