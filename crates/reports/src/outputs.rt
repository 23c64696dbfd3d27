//! Writing bytes to a writer.
ghost use Rattle.reports.specs.Writing.{Sends};

use crate::faults::ReportFault;
use saga_core::send_all;
use std::io::Write;

/// Writes all bytes. After a fault a prefix of them was written.
pub fn send<W: Write>(out: &mut W, bytes: &[u8]) -> Result<(), ReportFault>
    ensures sends { Sends (W.contents out.old) (W.contents out.new) bytes.now result }
{
    send_all(out, bytes)?;
    Ok(())
}
