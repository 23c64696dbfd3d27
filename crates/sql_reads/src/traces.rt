//! What a journey with its items is made of: its row, and the rows of its items.
ghost use Rattle.std.specs.Prelude.{◌≡◌, ◌<◌, ◌^◌, IfOk, IfSome};
ghost use Rattle.desk_sql.specs.declared.versions.Version.TheVariants.{Two};
ghost use Rattle.ledger.specs.Ledger.{history};
ghost use Rattle.sql_reads.specs.ItemSearch.{HasNoItemTo, IsBriefAt};
ghost use Rattle.sql_reads.specs.Reads.{Read, ReadIn};

use crate::reads::{LARGEST, find_row};
use crate::telling::{brief_of, items_told};
use commands::{Fault, Item};
use desk_sql::find_items;
use saga_core::Brief;
use sql_model::fault_of;
use sqlite::{Alter, Connection};
use std::alloc::Global;

/// Returns the items of the journey of that number, in order, if it has none in the first `after` events.
pub fn read_items<S: Alter>(
    alloc: Global,
    conn: &mut Connection<S>,
    id: u64,
    after: u64,
) -> Result<Vec<Item>, Fault>
    requires journey { id < 2 ^ 63 }
    requires after { after < 2 ^ 63 }

    ensures { ReadIn S.Store conn.old conn.new Two result (HasNoItemTo id after)
        (λ s items. HasNoItemTo id after s → items.items ≡ history s.ledger id) }
{
    match find_items(alloc, conn, id, after) {
        Ok(found) => items_told(alloc, found.as_slice()),
        Err(error) => Err(fault_of(&error)),
    }
}

/// Returns the journey of that number without its plan, and the number of the event that began it, if there is one.
pub fn find_brief<S: Alter>(
    conn: &mut Connection<S>,
    id: u64,
) -> Result<Option<(Brief, u64)>, Fault>
    ensures small { IfOk result (λ found. IfSome found (λ _. id < 2 ^ 63)) }
    ensures early { IfOk result (λ found. IfSome found (λ f. f.1 < 2 ^ 63)) }
    ensures read { Read S.Store conn.old conn.new result (IsBriefAt id) }
{
    let row = find_row(conn, id)?;
    match row {
        None => Ok(None),
        Some(found) if found.num <= LARGEST => match brief_of(&found) {
            Some(brief) => Ok(Some((brief, found.num))),
            None => Err(Fault::Store),
        },
        Some(_) => Err(Fault::Store),
    }
}
