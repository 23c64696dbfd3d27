//! Writing bytes out.
ghost use Rattle.std.specs.Prelude.{◌≡◌, ◌<◌, ◌≤◌, length, take, IfOk, OnErr, OnOk};
ghost use Rattle.std.specs.Io.KnownBytes.{Appends, Keeps};
ghost use Rattle.saga_core.specs.Written.{WroteFront};

use crate::stream_faults::WriteFailed;
use std::io::{ErrorKind, Write};

/// Writes all bytes and flushes the writer. After `WriteFailed` a prefix of the bytes was written.
pub fn send<W: Write>(writer: &mut W, bytes: &[u8]) -> Result<(), WriteFailed>
    ensures sent { OnOk result (Appends (W.contents writer.old) (W.contents writer.new) bytes.now) }

    ensures front { WroteFront (W.contents writer.old) (W.contents writer.new) bytes.now }
{
    send_all(writer, bytes)?;
    match writer.flush() {
        Ok(()) => Ok(()),
        Err(_) => Err(WriteFailed),
    }
}

/// Writes all bytes, and flushes nothing. After `WriteFailed` a prefix of the bytes was written.
pub fn send_all<W: Write>(writer: &mut W, bytes: &[u8]) -> Result<(), WriteFailed>
    ensures sent { OnOk result (Appends (W.contents writer.old) (W.contents writer.new) bytes.now) }

    ensures front { WroteFront (W.contents writer.old) (W.contents writer.new) bytes.now }
{
    let mut at = 0;
    while at < bytes.len() {
        let count = write_some(writer, &bytes[at..])?;
        at += count;
    }
    Ok(())
}

/// Writes a non-empty prefix by one call, and retries an interrupted write.
fn write_some<W: Write>(writer: &mut W, bytes: &[u8]) -> Result<usize, WriteFailed>
    ensures bound { IfOk result (λ count. count ≤ length bytes.now) }
    ensures some { IfOk result (λ count. 0 < count) }
    ensures sent { IfOk result (λ count.
        Appends (W.contents writer.old) (W.contents writer.new) (take count bytes.now)) }

    ensures kept { OnErr result (Keeps (W.contents writer.old) (W.contents writer.new)) }
{
    for _ in 0..u64::MAX {
        match writer.write(bytes) {
            Ok(0) => return Err(WriteFailed),
            Ok(count) => return Ok(count),
            Err(error) if error.kind() == ErrorKind::Interrupted => {}
            Err(_) => return Err(WriteFailed),
        }
    }
    Err(WriteFailed)
}
