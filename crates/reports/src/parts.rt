//! The parts of a stock report, for one whose cells come from several sources: its heading, its lines, its ending.
ghost use Rattle.std.specs.Prelude.{◌≡◌, ◌≢◌, codes, IfErr, OnOk};
ghost use Rattle.std.specs.List.{flat_map};
ghost use Rattle.std.specs.Io.KnownBytes.{Appends};
ghost use Rattle.reports.specs.Formats.{last_line, stock_head as head_in, stock_row};
ghost use Rattle.reports.specs.Writing.{Writes};
ghost use Rattle.saga_core.specs.Written.{WroteFront};

use crate::endings::Ending;
use crate::faults::ReportFault;
use crate::lines::stock_head;
use crate::rows::send_rows;
use allotment::{Cell, Held};
use saga_core::{Format, RowSource, send_all};
use std::alloc::Global;
use std::io::Write;

/// Writes what comes before the cells of a stock report.
pub fn begin_stock<W: Write>(format: Format, out: &mut W) -> Result<(), ReportFault>
    ensures sent { OnOk result
        (Appends (W.contents out.old) (W.contents out.new) (head_in format)) }

    ensures front { WroteFront (W.contents out.old) (W.contents out.new) (head_in format) }
    ensures write { IfErr result (λ fault. fault ≡ ReportFault.Write) }
{
    send_all(out, stock_head(format).as_bytes())?;
    Ok(())
}

/// Writes the lines of further cells of a stock report, and returns how many there were.
pub fn stock_lines<R: RowSource<(Cell, Held)>, W: Write>(
    alloc: Global,
    format: Format,
    rows: &mut R,
    out: &mut W,
) -> Result<u64, ReportFault>
    ensures writes { Writes R.RowSource rows.old rows.new (flat_map (stock_row format))
        (W.contents out.old) (W.contents out.new) result }
{
    send_rows(alloc, &format, rows, out)
}

/// Writes what comes after the cells of a stock report, of which there were so many.
pub fn end_stock<W: Write>(
    alloc: Global,
    format: Format,
    count: u64,
    out: &mut W,
) -> Result<(), ReportFault>
    ensures sent { OnOk result (Appends (W.contents out.old) (W.contents out.new)
        (last_line format (codes "cells") count)) }

    ensures front { WroteFront (W.contents out.old) (W.contents out.new)
        (last_line format (codes "cells") count) }
    ensures no_store { IfErr result (λ fault. fault ≢ ReportFault.Store) }
{
    Ending::of_list(format, "cells").send(alloc, count, out)
}
