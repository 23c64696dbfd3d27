//! The lines that pages have for caches.
ghost use Rattle.std.specs.Prelude.{◌≡◌, ◌<◌, ◌≤◌, IfOk, IfSome, length};
ghost use Rattle.std.specs.List.{position};
ghost use Rattle.http_conversations.specs.PageTexts.{cache_lines, head_of, is_line_feed, status_end, wide_text};

use http_messages::decided_front;
use std::alloc::{AllocError, Global};

/// The lines by which no cache keeps a page, or shows it to another agent (RFC 9111, section 5.2.2.5).
pub(crate) fn cache_lines() -> &'static str
    ensures lines { result.now ≡ cache_lines }
{
    "Cache-Control: no-store\r\nVary: Desk-Agent\r\n"
}

/// A page of the profile with the lines for caches and this date line after its status line; for HEAD without its body.
/// The only fault is out of memory.
pub(crate) fn wide_page(
    alloc: Global,
    page: &[u8],
    is_head: bool,
    date: &str,
) -> Result<Vec<u8>, AllocError>
    ensures bytes { IfOk result (λ bytes. bytes.items ≡ wide_text is_head date.now page.now) }
{
    let shown = if is_head { head_of(page) } else { page };
    let end = status_end(shown);
    let mut bytes = shown[..end].to_vec(alloc)?;
    bytes.extend_from_slice(cache_lines().as_bytes())?;
    bytes.extend_from_slice(date.as_bytes())?;
    bytes.extend_from_slice(&shown[end..])?;
    Ok(bytes)
}

/// A page up to the empty line before its body.
fn head_of(page: &[u8]) -> &[u8]
    ensures head { result.now ≡ head_of page.now }
{
    match decided_front(page) {
        Some(end) => &page[..end],
        None => page,
    }
}

/// How many bytes the status line has, with its end.
fn status_end(page: &[u8]) -> usize
    ensures within { result ≤ length page.now }
    ensures end { result ≡ status_end page.now }
{
    match line_feed_in(page) {
        Some(at) => at + 1,
        None => page.len(),
    }
}

/// Where the first line feed stands.
fn line_feed_in(page: &[u8]) -> Option<usize>
    ensures place { result ≡ position is_line_feed page.now }
    ensures within { IfSome result (λ at. at < length page.now) }
{
    page.iter().position(|byte| *byte == b'\n')
}
