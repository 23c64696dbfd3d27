//! What the clocks of the system show.
ghost use Rattle.std.specs.Prelude.{◌≡◌};
ghost use Rattle.http_live.specs.Logging.{millis_read};
ghost use Rattle.http_live.specs.Seen.{micros_between};

use std::io;
use std::time::{Instant, SystemTime, UNIX_EPOCH};

/// How many milliseconds after 1970 the clock of the system was read, if it was.
pub(crate) fn millis_of(now: io::Result<SystemTime>) -> Option<u64>
    ensures millis { result ≡ millis_read now }
{
    let since = now.ok()?.duration_since(UNIX_EPOCH).ok()?;
    Some(u64::try_from(since.as_millis()).unwrap_or(u64::MAX))
}

/// How many microseconds lie between two times; 0 where the clock was not read.
pub(crate) fn micros_between(from: Option<Instant>, to: Option<Instant>) -> u64
    ensures micros { result ≡ micros_between from to }
{
    match (from, to) {
        (Some(from), Some(to)) => {
            u64::try_from(to.duration_since(from).as_micros()).unwrap_or(u64::MAX)
        }
        _ => 0,
    }
}
