//! Pages: the answers to requests, with their statuses.
ghost use Rattle.std.specs.Prelude.{◌≡◌, IfOk};
ghost use Rattle.http_pages.specs.Pages.{page_said, shown_page, reply_page};
ghost use Rattle.http_pages.specs.Pages.{denied_page, refused_page, body_bytes, media_of, media_type};

use crate::bodies::{refusal_body, reply_body};
use crate::heads::Status;
use crate::routes::{Denied, Verb};
use commands::{Refusal, Reply};
use std::alloc::{AllocError, Global};

/// The body of a page.
#[derive(Drop)]
pub enum Body {
    /// A JSON value in its compact text.
    Json(String),
    /// The text of a report.
    Text(Vec<u8>),
    /// A page for browsers.
    Html(HtmlPage),
    /// What a monitor reads (the text format of Prometheus, version 0.0.4).
    Metrics(String),
}

/// A page for browsers.
#[derive(Clone, Copy, Debug, PartialEq, Eq)]
pub struct HtmlPage {
    /// The page, in HTML.
    pub text: &'static str,
    /// What it may load and do, the value of `Content-Security-Policy` (Content Security Policy Level 3).
    pub policy: &'static str,
}

/// The answer to a request.
#[derive(Drop)]
pub struct Page {
    pub status: Status,
    /// The method that the path has, where another was asked.
    pub allow: Option<Verb>,
    pub body: Body,
}

/// The bytes of a body.
pub(crate) fn bytes_of(body: &Body) -> &[u8]
    ensures bytes { result.now ≡ body_bytes body.now }
{
    match body {
        Body::Json(text) => text.as_bytes(),
        Body::Text(bytes) => bytes,
        Body::Html(html) => html.text.as_bytes(),
        Body::Metrics(text) => text.as_bytes(),
    }
}

/// The media type of a body.
pub(crate) fn media_type_of(body: &Body) -> &'static str
    ensures media_type { result.now ≡ media_type (media_of body.now) }
{
    match body {
        Body::Json(_) => "application/json",
        Body::Text(_) => "text/plain",
        Body::Html(_) => "text/html; charset=utf-8",
        Body::Metrics(_) => "text/plain; version=0.0.4",
    }
}

/// The page with status 200 of this body: a JSON value in its compact text, a report, a page for browsers, or what a monitor
/// reads.
pub fn shown_page(body: Body) -> Page
    ensures page { page_said result ≡ shown_page body }
{
    Page {
        status: Status::Fine,
        allow: None,
        body,
    }
}

/// The page of a reply. The only fault is out of memory.
pub fn reply_page(alloc: Global, reply: &Reply) -> Result<Page, AllocError>
    ensures page { IfOk result (λ page. page_said page ≡ reply_page reply.now) }
{
    match reply {
        Reply::Refused(refusal) => refused_page(alloc, refusal),
        _ => Ok(shown_page(Body::Json(reply_body(alloc, reply)?))),
    }
}

/// The page of a refusal without a method for `Allow`. The only fault is out of memory.
pub fn refused_page(alloc: Global, refusal: &Refusal) -> Result<Page, AllocError>
    ensures page { IfOk result (λ page. page_said page ≡ refused_page refusal.now) }
{
    Ok(Page {
        status: Status::of(refusal),
        allow: None,
        body: Body::Json(refusal_body(alloc, refusal)?),
    })
}

/// The page of a request that is denied before its body is read. The only fault is out of memory.
pub fn denied_page(alloc: Global, denied: &Denied) -> Result<Page, AllocError>
    ensures page { IfOk result
        (λ page. page_said page ≡ denied_page denied.now.refusal denied.now.allow) }
{
    Ok(Page {
        status: Status::of(&denied.refusal),
        allow: denied.allow,
        body: Body::Json(refusal_body(alloc, &denied.refusal)?),
    })
}
