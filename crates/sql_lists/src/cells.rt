//! Cells with their places, one at a time: all, or those of a kind that a filter names.

ghost use Rattle.std.specs.Prelude.{◌≡◌, List, IfErr, IfOk, option_map};
ghost use Rattle.std.specs.Borrow.{sem};
ghost use Rattle.sqlite.specs.Held.{state};
ghost use Rattle.sqlite.specs.State.{HasCleanDisk};
ghost use Rattle.desk_sql.specs.Calls.{Quiet};
ghost use Rattle.desk_sql.specs.Causes.{HasReason, IsUp};
ghost use Rattle.desk_sql.specs.Lending.{LeavesIfErr};
ghost use Rattle.desk_sql.specs.Readable.{AreCellTexts, Each};
ghost use Rattle.desk_sql.specs.RemainingRows.{Hands, IsStockInOrder};
ghost use Rattle.desk_sql.specs.Rows.{StockRow};
ghost use Rattle.desk_sql.specs.Stock.{stock_of};
ghost use Rattle.sql_lists.specs.Listing.{StartsOver};
ghost use Rattle.sql_lists.specs.CellLists.{CellsRest, IsListOf};

use allotment::Kind;
use desk_sql::{CellFound, read_cell};
use saga_core::CellFilter;
use sqlite::types::ValueRef;
use sqlite::{Alter, Connection, Error, Rows};

/// Starts to read all cells, in order of kind, supplier, product and night. If that fails, nothing has changed.
pub fn hand_stock<S: Alter>(conn: &mut Connection<S>) -> Result<Rows<'_, S>, Error>
    ensures* fault { sem 𝓛 (LeavesIfErr S.row S.Store conn.entry result) }
    ensures started { IfOk result (λ it.
        StartsOver S.Store conn.entry it IsStockInOrder (CellsRest S.Store)) }
{
    conn.query(
        "SELECT kind, supplier, product, night, allot, free FROM stock ORDER BY kind, supplier, product, night",
        &[],
    )
}

/// Starts to read the cells of a kind that a filter names by their supplier, product and night, in this order. If that
/// fails, nothing has changed. The key of the cells leads to those of the supplier, or of its product, if it is named.
pub fn hand_cells<'a, S: Alter>(
    conn: &'a mut Connection<S>,
    kind: Kind,
    filter: &CellFilter,
) -> Result<Rows<'a, S>, Error>
    ensures* fault { sem 𝓛 (LeavesIfErr S.row S.Store conn.entry result) }
    ensures started { IfOk result (λ it.
        StartsOver S.Store conn.entry it (IsListOf kind filter.now) (CellsRest S.Store)) }
{
    let kind = ValueRef::Int(u64::from(kind.number()) as i64);
    let first = ValueRef::Int(filter.first_day() as i64);
    let last = ValueRef::Int(filter.last_day() as i64);
    match (filter.supplier, filter.product) {
        (None, None) => conn.query(
            "SELECT kind, supplier, product, night, allot, free FROM stock WHERE kind = ?1 AND night BETWEEN ?2 AND ?3 ORDER BY kind, supplier, product, night",
            &[kind, first, last],
        ),
        (Some(supplier), None) => conn.query(
            "SELECT kind, supplier, product, night, allot, free FROM stock WHERE kind = ?1 AND supplier = ?2 AND night BETWEEN ?3 AND ?4 ORDER BY kind, supplier, product, night",
            &[
                kind,
                ValueRef::Text(supplier.as_str().as_bytes()),
                first,
                last,
            ],
        ),
        (None, Some(product)) => conn.query(
            "SELECT kind, supplier, product, night, allot, free FROM stock WHERE kind = ?1 AND product = ?2 AND night BETWEEN ?3 AND ?4 ORDER BY kind, supplier, product, night",
            &[
                kind,
                ValueRef::Text(product.as_str().as_bytes()),
                first,
                last,
            ],
        ),
        (Some(supplier), Some(product)) => conn.query(
            "SELECT kind, supplier, product, night, allot, free FROM stock WHERE kind = ?1 AND supplier = ?2 AND product = ?3 AND night BETWEEN ?4 AND ?5 ORDER BY kind, supplier, product, night",
            &[
                kind,
                ValueRef::Text(supplier.as_str().as_bytes()),
                ValueRef::Text(product.as_str().as_bytes()),
                first,
                last,
            ],
        ),
    }
}

/// Returns the next cell of the rows that `hand_stock` or `hand_cells` started; `None` after the last one.
pub fn next_cell<S: Alter>(rows: &mut Rows<'_, S>) -> Result<Option<CellFound>, Error>
    ensures same_reference { rows.new.conn.ghost_name ≡ rows.old.conn.ghost_name }
    ensures next { HasCleanDisk (state S.Store rows.new.conn.now) → IfOk result (λ found.
        Hands (CellsRest S.Store rows.old.conn.now)
        (CellsRest S.Store rows.new.conn.now) (option_map stock_of found)) }
    ensures reason { HasCleanDisk (state S.Store rows.new.conn.now) → (later : List StockRow)
        → CellsRest S.Store rows.old.conn.now later → Each AreCellTexts later
        → IsUp (state S.Store rows.old.conn.now)
        → IfErr result
        (HasReason (state S.Store rows.old.conn.now) (state S.Store rows.new.conn.now)) }
    ensures quiet { Quiet S.Store rows.old.conn.now rows.new.conn.now }
{
    rows.advance()?;
    match rows.get() {
        Some(row) => {
            let cell = read_cell(row)?;
            Ok(Some(cell))
        }
        None => Ok(None),
    }
}
