//! Reading some bytes.
ghost use Rattle.std.specs.Prelude.{◌≡◌, ◌<◌, ◌≤◌, length, take, IfOk, OnErr};
ghost use Rattle.std.specs.Io.KnownBytes.{Consumes, IsAtEnd, Keeps};

use crate::stream_faults::ReadFailed;
use std::io::{ErrorKind, Read};

/// Reads some bytes into the buffer, and retries an interrupted read. Returns how many bytes now stand at the start of
/// the buffer: 0 at the end of the input, or if the buffer is empty. `ReadFailed` reports any other error of the
/// reader, and nothing was consumed.
pub fn read_some<R: Read>(reader: &mut R, buffer: &mut [u8]) -> Result<usize, ReadFailed>
    ensures bound { IfOk result (λ count. count ≤ length buffer.new) }
    ensures bytes { IfOk result (λ count.
        Consumes (R.remaining reader.old) (R.remaining reader.new) (take count buffer.new)) }
    ensures end { IfOk result (λ count. count ≡ 0 → 0 < length buffer.new →
        IsAtEnd (R.remaining reader.new)) }

    ensures fault { OnErr result (Keeps (R.remaining reader.old) (R.remaining reader.new)) }
{
    for _ in 0..u64::MAX {
        match reader.read(buffer) {
            Ok(count) => return Ok(count),
            Err(error) if error.kind() == ErrorKind::Interrupted => {}
            Err(_) => return Err(ReadFailed),
        }
    }
    Err(ReadFailed)
}
