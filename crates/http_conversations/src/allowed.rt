//! Pages that say which methods are allowed.
ghost use Rattle.std.specs.Prelude.{◌≡◌, IfOk};
ghost use Rattle.std.specs.String.{string_bytes};
ghost use Rattle.http_conversations.specs.PageTexts.{allow_line, body_unless, not_allowed_text, options_text};
ghost use Rattle.http_pages.specs.Pages.{close_line};

use crate::lines::cache_lines;
use commands::Refusal;
use http_pages::{Verb, refusal_body};
use std::alloc::{AllocError, Global};

/// The page that answers OPTIONS for a path with this method, or for `*`. It has no body. The only fault is out of
/// memory.
pub(crate) fn options_page(
    alloc: Global,
    verb: Option<Verb>,
    closes: bool,
    date: &str,
) -> Result<String, AllocError>
    ensures bytes { IfOk result
        (λ page. string_bytes page ≡ options_text verb closes date.now) }
{
    let lines = cache_lines();
    let allow = allow_line(verb);
    let close = close_line(closes);
    format!(in alloc; "HTTP/1.1 204 No Content\r\n{lines}{date}{allow}{close}\r\n")
}

/// The page that answers another method than those of a path; for HEAD without its body. The only fault is out of memory.
pub(crate) fn not_allowed_page(
    alloc: Global,
    verb: Verb,
    is_head: bool,
    closes: bool,
    date: &str,
) -> Result<String, AllocError>
    ensures bytes { IfOk result
        (λ page. string_bytes page ≡ not_allowed_text verb is_head closes date.now) }
{
    let lines = cache_lines();
    let allow = allow_line(Some(verb));
    let close = close_line(closes);
    let body = refusal_body(alloc, &Refusal::WrongMethod)?;
    let length = body.as_str().len();
    let text = body_unless(is_head, body.as_str());
    format!(in alloc;
        "HTTP/1.1 405 Method Not Allowed\r\n\
        {lines}{date}Content-Length: {length}\r\n\
        Content-Type: application/json\r\n\
        {allow}{close}\r\n{text}"
    )
}

/// A body, which HEAD does not get.
fn body_unless(is_head: bool, body: &str) -> &str
    ensures body { result.now ≡ body_unless is_head body.now }
{
    if is_head { "" } else { body }
}

/// The line that reports which methods are allowed.
fn allow_line(verb: Option<Verb>) -> &'static str
    ensures line { result.now ≡ allow_line verb }
{
    match verb {
        None => "Allow: GET, HEAD, OPTIONS, POST\r\n",
        Some(Verb::Get) => "Allow: GET, HEAD, OPTIONS\r\n",
        Some(Verb::Post) => "Allow: OPTIONS, POST\r\n",
    }
}

/// The line that announces that the connection is closed after the page.
fn close_line(closes: bool) -> &'static str
    ensures line { result.now ≡ close_line closes }
{
    if closes { "Connection: close\r\n" } else { "" }
}
