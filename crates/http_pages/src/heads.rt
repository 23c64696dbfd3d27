//! Statuses, and the bytes of a page (RFC 9112, sections 4 and 5).
ghost use Rattle.http_pages.specs.Pages.{page_said, page_text, head_with, further_fields, media_of, policy_line, allow_line, close_line};
ghost use Rattle.http_pages.specs.Statuses.{status_of, status_code, phrase};
ghost use Rattle.std.specs.Prelude.{◌≡◌, IfOk};
ghost use Rattle.std.specs.String.{string_bytes};

use crate::answers::{Body, Page, bytes_of, media_type_of};
use crate::routes::Verb;
use commands::Refusal;
use http::StatusCode;
use std::alloc::{AllocError, Global};

/// The bytes of a page as it is sent: status line, fields, an empty line, and the body, which HEAD does not get. After
/// a closing page the connection is closed. The only fault is out of memory.
pub fn page_bytes(
    alloc: Global,
    page: &Page,
    closes: bool,
    is_head: bool,
) -> Result<Vec<u8>, AllocError>
    ensures bytes { IfOk result
        (λ bytes. bytes.items ≡ page_text is_head closes (page_said page.now)) }
{
    let fields = further_fields(alloc, page)?;
    let mut bytes = head_of(alloc, page, fields.as_str(), closes)?.into_bytes();
    if !is_head {
        bytes.extend_from_slice(bytes_of(&page.body))?;
    }
    Ok(bytes)
}

/// The bytes before the body, with these lines of the fields that only some pages have.
fn head_of(alloc: Global, page: &Page, fields: &str, closes: bool) -> Result<String, AllocError>
    ensures head { IfOk result
        (λ head. string_bytes head ≡ head_with fields.now closes (page_said page.now)) }
{
    let code = page.status.code().as_u16();
    let phrase = page.status.phrase();
    let length = bytes_of(&page.body).len();
    let media_type = media_type_of(&page.body);
    let close = close_line(closes);
    format!(in alloc;
        "HTTP/1.1 {code} {phrase}\r\n\
        Content-Length: {length}\r\n\
        Content-Type: {media_type}\r\n\
        {fields}{close}\r\n"
    )
}

/// The lines of the fields that only some pages have. The only fault is out of memory.
fn further_fields(alloc: Global, page: &Page) -> Result<String, AllocError>
    ensures fields { IfOk result
        (λ fields. string_bytes fields ≡ further_fields (page_said page.now)) }
{
    let policy = policy_line(alloc, &page.body)?;
    let allow = allow_line(page.allow);
    format!(in alloc; "{policy}{allow}")
}

/// The line with the policy for content of a page for browsers. The only fault is out of memory.
fn policy_line(alloc: Global, body: &Body) -> Result<String, AllocError>
    ensures line { IfOk result (λ line. string_bytes line ≡ policy_line (media_of body.now)) }
{
    match body {
        Body::Json(_) | Body::Text(_) | Body::Metrics(_) => Ok(String::new(alloc)),
        Body::Html(html) => {
            let policy = html.policy;
            format!(in alloc; "Content-Security-Policy: {policy}\r\n")
        }
    }
}

/// The line that reports which method is allowed, where another was asked.
fn allow_line(allow: Option<Verb>) -> &'static str
    ensures line { result.now ≡ allow_line allow }
{
    match allow {
        None => "",
        Some(Verb::Get) => "Allow: GET\r\n",
        Some(Verb::Post) => "Allow: POST\r\n",
    }
}

/// The line that announces that the connection is closed after the page.
fn close_line(closes: bool) -> &'static str
    ensures line { result.now ≡ close_line closes }
{
    if closes { "Connection: close\r\n" } else { "" }
}

/// The status of a page.
#[derive(Clone, Copy, Debug, PartialEq, Eq)]
pub enum Status {
    /// What was asked for is done or shown.
    Fine,
    /// The request has not the right form.
    BadRequest,
    /// There is no such path or journey.
    NotFound,
    /// The path has another method.
    NotAllowed,
    /// The state of the desk forbids it.
    Conflict,
    /// The request does not give the length of its body.
    LengthRequired,
    /// The body is too large.
    TooLarge,
}

impl Status {
    /// The status of a refusal's page. The two refusals of files, 20 and 23, answer no request;
    /// they count as conflicts.
    pub fn of(refusal: &Refusal) -> Status
        ensures status { result ≡ status_of refusal.now }
    {
        match refusal {
            Refusal::BadHead | Refusal::NoAgent | Refusal::NoKey => Status::BadRequest,
            Refusal::BadBody | Refusal::BadPlan(_) | Refusal::BadCsv { .. } => Status::BadRequest,
            Refusal::UnknownPath | Refusal::NoJourney => Status::NotFound,
            Refusal::WrongMethod => Status::NotAllowed,
            Refusal::Finished | Refusal::NoSavePoint | Refusal::NoSave => Status::Conflict,
            Refusal::BelowHeld { .. } | Refusal::BatchDiffers => Status::Conflict,
            Refusal::KeyReused | Refusal::Limit => Status::Conflict,
            Refusal::UnknownSchema { .. } | Refusal::AlreadyNew => Status::Conflict,
            Refusal::TooLarge => Status::TooLarge,
            Refusal::NoLength => Status::LengthRequired,
        }
    }

    /// The status code (RFC 9110, section 15).
    pub fn code(&self) -> StatusCode
        ensures code { result ≡ status_code self.now }
    {
        match self {
            Status::Fine => StatusCode::OK,
            Status::BadRequest => StatusCode::BAD_REQUEST,
            Status::NotFound => StatusCode::NOT_FOUND,
            Status::NotAllowed => StatusCode::METHOD_NOT_ALLOWED,
            Status::Conflict => StatusCode::CONFLICT,
            Status::LengthRequired => StatusCode::LENGTH_REQUIRED,
            Status::TooLarge => StatusCode::PAYLOAD_TOO_LARGE,
        }
    }

    /// The phrase after the code (RFC 9110, section 15).
    pub fn phrase(&self) -> &'static str
        ensures phrase { result.now ≡ phrase self.now }
    {
        match self {
            Status::Fine => "OK",
            Status::BadRequest => "Bad Request",
            Status::NotFound => "Not Found",
            Status::NotAllowed => "Method Not Allowed",
            Status::Conflict => "Conflict",
            Status::LengthRequired => "Length Required",
            Status::TooLarge => "Content Too Large",
        }
    }
}
