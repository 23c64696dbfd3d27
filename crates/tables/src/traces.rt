//! A journey with its items: its row, and then the rows of its items.
ghost use Rattle.std.specs.Prelude.{◌≡◌, ◌<◌, ◌^◌};
ghost use Rattle.desk_sql.specs.declared.versions.Version.TheVariants.{Two};
ghost use Rattle.ledger.specs.Ledger.{history};
ghost use Rattle.sql_reads.specs.ItemSearch.{HasNoItemTo};
ghost use Rattle.sql_reads.specs.Reading.{IsTraceAt};
ghost use Rattle.sql_reads.specs.Reads.{Read, ReadIn};

use commands::{Fault, Item, Phase};
use desk_sql::Version;
use report_writers::start_items;
use reports::take_rows;
use saga_core::{Trace, is_finished};
use sql_reads::{find_brief, read_items};
use sqlite::{Alter, Connection};
use std::alloc::Global;

/// Returns the items of the journey of that number, in order, each by a query of its own. If the journey has finished, no
/// row after that of its last item is looked at.
fn read_each<S: Alter>(alloc: Global, conn: &mut Connection<S>, id: u64) -> Result<Vec<Item>, Fault>
    ensures { Read S.Store conn.old conn.new result (λ s items. items.items ≡ history s.ledger id) }
{
    let mut rows = match start_items(conn, Version::Two, id) {
        Ok(rows) => rows,
        Err(fault) => return Err(fault),
    };
    take_rows(alloc, &mut rows, usize::MAX)
}

/// Returns the items of the journey of that number, which is in this phase, in order, if it has none in the first `after`
/// events. If it has not finished, all later items of the file are looked at.
fn read_by_phase<S: Alter>(
    alloc: Global,
    conn: &mut Connection<S>,
    id: u64,
    phase: Phase,
    after: u64,
) -> Result<Vec<Item>, Fault>
    requires journey { id < 2 ^ 63 }
    requires after { after < 2 ^ 63 }

    ensures { ReadIn S.Store conn.old conn.new Two result (HasNoItemTo id after)
        (λ s items. HasNoItemTo id after s → items.items ≡ history s.ledger id) }
{
    if is_finished(phase) {
        return read_each(alloc, conn, id);
    }
    read_items(alloc, conn, id, after)
}

/// Returns the journey of that number with its items, in order, if there is one. Its plan is not read.
pub(crate) fn read_trace<S: Alter>(
    alloc: Global,
    conn: &mut Connection<S>,
    id: u64,
) -> Result<Option<Trace>, Fault>
    ensures { Read S.Store conn.old conn.new result (IsTraceAt id) }
{
    match find_brief(conn, id)? {
        Some((brief, begun)) => {
            let items = read_by_phase(alloc, conn, id, brief.cursor.phase, begun)?;
            Ok(Some(Trace { brief, items }))
        }
        None => Ok(None),
    }
}
