//! The time of a line.
ghost use Rattle.std.specs.Prelude.{◌≡◌, ◌*◌, ◌↔◌, pos, IfOk, IfSome, IsSome};
ghost use Rattle.std.specs.String.{string_bytes};
ghost use Rattle.jiff_core.specs.Timestamp.{IsTimestampNanos};
ghost use Rattle.http_log.specs.Times.{IsTimeText, IsTimedLine, nanos_of};

use jiff_core::Timestamp;
use jiff_fmt::temporal::DateTimePrinter;
use std::alloc::{AllocError, Global};

/// How many digits of a second are shown.
const DIGITS: u8 = 3;

/// The time of so many milliseconds since 1970, as `2030-06-01T09:41:07.250Z` (RFC 3339). There is none after
/// 9999-12-30T22:00:00.999Z. The only fault is out of memory.
pub fn time_text(alloc: Global, millis: u64) -> Result<Option<String>, AllocError>
    ensures text { IfOk result (λ found. IfSome found (λ text.
        IsTimeText millis (string_bytes text))) }
    ensures some { IfOk result (λ found. IsSome found ↔ IsTimestampNanos (nanos_of millis)) }
{
    let Ok(time) = Timestamp::from_nanosecond(i128::from(millis) * 1_000_000) else {
        return Ok(None);
    };
    let printer = DateTimePrinter::new().precision(Some(DIGITS));
    let text = String::from_str(alloc, printer.timestamp_text(time).as_str())?;
    Ok(Some(text))
}

/// A line with its time in front, as `2030-06-01T09:41:07.250Z [INFO  desk] opened recovered=3`. It is `None` where the time is.
/// The only fault is out of memory.
pub fn timed_line(alloc: Global, millis: u64, line: &str) -> Result<Option<String>, AllocError>
    ensures line { IfOk result (λ found. IfSome found (λ text.
        IsTimedLine millis line.now (string_bytes text))) }
    ensures some { IfOk result (λ found. IsSome found ↔ IsTimestampNanos (nanos_of millis)) }
{
    match time_text(alloc, millis)? {
        None => Ok(None),
        Some(time) => Ok(Some(format!(in alloc; "{time} [INFO  desk] {line}")?)),
    }
}
