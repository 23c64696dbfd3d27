//! The reports of holders, written row by row.
ghost use Rattle.reports.specs.HoldingLayouts.{holdings_shown};
ghost use Rattle.reports.specs.HolderLayouts.{holders_in};
ghost use Rattle.reports.specs.Writing.{Writes};

use crate::endings::Ending;
use crate::faults::ReportFault;
use crate::holder_layouts::holders_head;
use crate::holders::Holder;
use crate::holding_layouts::holdings_head;
use crate::holdings::Holding;
use crate::reports::send_report;
use saga_core::{Format, RowSource};
use std::alloc::Global;
use std::io::Write;

/// Writes the report of the holders of a cell, and returns how many there are.
///
/// Each holder has a line with the journey's number, its step and option, and the places that it holds. A text and a CSV
/// file begin with a heading, and the last line of a text is `holders` and their number. The lines are in the order of
/// the rows.
pub fn holders_text<R: RowSource<Holder>, W: Write>(
    alloc: Global,
    format: Format,
    rows: &mut R,
    out: &mut W,
) -> Result<u64, ReportFault>
    ensures writes { Writes R.RowSource rows.old rows.new (holders_in format)
        (W.contents out.old) (W.contents out.new) result }
{
    let ending = Ending::of_list(format, "holders");
    send_report(alloc, holders_head(format), &format, rows, &ending, out)
}

/// Writes the report of the holders of cells, night by night, and returns how many there are.
///
/// Each holder has a line with the night, kind, supplier and product of the cell, the number, agent and state of the
/// journey, and the places that it holds. A text and a CSV file begin with a heading, and the last line of a text is
/// `holders` and their number. The lines are in the order of the rows.
pub fn holdings_text<R: RowSource<Holding>, W: Write>(
    alloc: Global,
    format: Format,
    rows: &mut R,
    out: &mut W,
) -> Result<u64, ReportFault>
    ensures writes { Writes R.RowSource rows.old rows.new (holdings_shown format)
        (W.contents out.old) (W.contents out.new) result }
{
    let ending = Ending::of_list(format, "holders");
    send_report(alloc, holdings_head(format), &format, rows, &ending, out)
}
