//! Rows of a source, taken into a list.
ghost use Rattle.std.specs.Prelude.{◌≡◌, List, IfOk, take};
ghost use Rattle.reports.specs.Faults.{reported};
ghost use Rattle.reports.specs.Writing.{Takes};

use commands::Fault;
use saga_core::RowSource;
use std::alloc::Global;

/// Takes the rows that remain of a source, at most so many. Once it has so many, no further row is read.
pub fn take_rows<T: Drop, R: RowSource<T>>(
    alloc: Global,
    rows: &mut R,
    most: usize,
) -> Result<Vec<T>, Fault>
    ensures taken { R.is_sound rows.new → (all : List T) → R.rests rows.old all
        → IfOk result (λ list. list.items ≡ take most all) }
    ensures takes { Takes R.RowSource rows.old rows.new (reported result) }
{
    let mut list = Vec::new(alloc);
    for _round in 0..most {
        let Some(row) = rows.next_row()? else {
            return Ok(list);
        };
        if list.push(row).is_err() {
            return Err(Fault::Memory);
        }
    }
    Ok(list)
}
