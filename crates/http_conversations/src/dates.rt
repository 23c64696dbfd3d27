//! The field `Date` (RFC 9110, section 6.6.1).
ghost use Rattle.std.specs.Prelude.{◌≡◌, ◌++◌, codes, IfOk};
ghost use Rattle.std.specs.String.{string_bytes};
ghost use Rattle.httpdate.specs.Date.{date_text};
ghost use Rattle.http_pages.specs.Pages.{line};
ghost use Rattle.http_conversations.specs.PageTexts.{IsDateLine};

use httpdate::{HttpDate, fmt_http_date};
use std::alloc::{AllocError, Global};

/// The field `Date` of a second since 1970, with its line end: `Date: Sun, 06 Nov 1994 08:49:37 GMT`. Nothing where the
/// clock was not read, or from the year 10000 on. The only fault is out of memory.
pub(crate) fn date_line(alloc: Global, second: Option<u64>) -> Result<String, AllocError>
    ensures line { IfOk result (λ line. IsDateLine second (string_bytes line)) }
{
    let Some(second) = second else {
        return Ok(String::new(alloc));
    };
    match HttpDate::from_unix_secs(second) {
        Ok(date) => line_of(alloc, date),
        Err(_) => Ok(String::new(alloc)),
    }
}

/// The field of a date, with its line end. The only fault is out of memory.
fn line_of(alloc: Global, date: HttpDate) -> Result<String, AllocError>
    ensures line { IfOk result
        (λ text. string_bytes text ≡ line (codes "Date: " ++ date_text date)) }
{
    let text = fmt_http_date(alloc, date)?;
    format!(in alloc; "Date: {text}\r\n")
}
