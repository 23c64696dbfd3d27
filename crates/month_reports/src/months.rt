//! The months of the cells of a source, read one after another.
ghost use Rattle.std.specs.Prelude.{◌≡◌, ◌+◌, ◌<◌, ◌≤◌, ◌^◌, ◌++◌, [], ◌∷◌, List, Some, length, IfOk, OnOk};
ghost use Rattle.saga_core.specs.RowSources.{count_of, Hands};
ghost use Rattle.month_reports.specs.Months.{AskedRest, MonthsRest};
ghost use Rattle.month_reports.specs.declared.sums.TheConstants.{MOST_NIGHTS};
ghost use Rattle.reports.specs.Faults.{reported};
ghost use Rattle.reports.specs.Writing.{Takes};

use crate::days::goes_on;
use crate::sums::MOST_NIGHTS;
use allotment::{Cell, Held};
use commands::Fault;
use reports::ReportFault;
use saga_core::{CellFilter, RowSource};
use std::alloc::{AllocError, Global};

/// A month that was read, of at most 31 nights, and the first cell after it.
#[derive(Drop)]
pub(crate) struct MonthRead {
    pub(crate) cells: Vec<(Cell, Held)>,
    pub(crate) after: Option<(Cell, Held)>,
    ghost few: { length cells.items ≤ MOST_NIGHTS },
}

/// Returns the next cell of the source that the filter lets through; `None` after the last one.
pub(crate) fn next_asked<R: RowSource<(Cell, Held)>>(
    filter: &CellFilter,
    rows: &mut R,
) -> Result<Option<(Cell, Held)>, Fault>
    ensures next { R.is_sound rows.new → IfOk result
        (Hands (AskedRest filter.now (R.rests rows.old))
        (AskedRest filter.now (R.rests rows.new))) }
    ensures counted { IfOk result (λ found. count_of found + R.given rows.old ≤ R.given rows.new) }
    ensures few { R.given rows.new < 2 ^ 64 }

    ensures takes { Takes R.RowSource rows.old rows.new (reported result) }
{
    while let Some(row) = rows.next_row()? {
        if filter.lets(&row.0) {
            return Ok(Some(row));
        }
    }
    Ok(None)
}

/// Reads the month that begins with this cell: the cells that are asked for, while each goes on with the month.
pub(crate) fn read_month<R: RowSource<(Cell, Held)>>(
    alloc: Global,
    filter: &CellFilter,
    first: &(Cell, Held),
    rows: &mut R,
) -> Result<MonthRead, ReportFault>
    ensures month { R.is_sound rows.new → IfOk result (λ read.
        Hands (MonthsRest (AskedRest filter.now (R.rests rows.old)) (Some first.now))
        (MonthsRest (AskedRest filter.now (R.rests rows.new)) read.after) (Some read.cells.items)) }
    ensures counted { IfOk result
        (λ read. count_of read.after + R.given rows.old ≤ R.given rows.new) }
    ensures given { OnOk result (R.given rows.new < 2 ^ 64) }

    ensures takes { Takes R.RowSource rows.old rows.new result }
{
    let mut cells = Vec::new(alloc);
    add(&mut cells, first)?;
    let mut last = *first;
    while let Some(row) = next_asked(filter, rows)? {
        if !goes_on(&last.0, &row.0) {
            return Ok(MonthRead {
                cells,
                after: Some(row),
            });
        }
        add(&mut cells, &row)?;
        last = row;
    }
    Ok(MonthRead { cells, after: None })
}

/// Adds a cell to a month.
fn add(cells: &mut Vec<(Cell, Held)>, row: &(Cell, Held)) -> Result<(), AllocError>
    ensures added { OnOk result (cells.new.items ≡ cells.old.items ++ row.now ∷ []) }
{
    cells.push(*row)?;
    Ok(())
}
