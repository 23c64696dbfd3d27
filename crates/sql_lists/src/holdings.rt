//! The options that hold places of the cells that a filter lets through, night by night, one at a time.

ghost use Rattle.std.specs.Prelude.{◌≡◌, List, IfErr, IfOk, option_map};
ghost use Rattle.std.specs.Borrow.{sem};
ghost use Rattle.sqlite.specs.Held.{state};
ghost use Rattle.sqlite.specs.State.{HasCleanDisk};
ghost use Rattle.desk_sql.specs.Calls.{Quiet};
ghost use Rattle.desk_sql.specs.Causes.{HasReason, IsMemory, IsUp};
ghost use Rattle.desk_sql.specs.FoundRows.{six_of, ten_of};
ghost use Rattle.desk_sql.specs.Lending.{LeavesIfErr};
ghost use Rattle.desk_sql.specs.Readable.{Each};
ghost use Rattle.desk_sql.specs.RemainingRows.{Hands};
ghost use Rattle.desk_sql.specs.Stock.{shows_cell};
ghost use Rattle.sql_lists.specs.Listing.{StartsOver};
ghost use Rattle.sql_lists.specs.HoldingLists.{AreHoldingTexts, HoldingRow, HoldingsRest, ListsHoldings, holding_found, holding_shown, kind_param, name_param, night_param, shows_holding, value_of};

use allotment::{Code, Kind, Night};
use desk_sql::CellFound;
use saga_core::CellFilter;
use sqlite::types::ValueRef;
use sqlite::{Alter, Connection, Error, Row, Rows};

/// An option that was taken, a cell of which it holds places, and what is shown of its journey.
#[derive(Debug, Drop)]
pub struct HoldingFound {
    pub cell: CellFound,
    /// The journey's number.
    pub journey: u64,
    pub agent: String,
    /// The number of the journey's phase: 0 running, 1 going back, 2 ended, 3 undone.
    pub phase: u64,
    /// The number of places.
    pub places: u64,
}

/// The number of a kind, if one is named.
fn kind_value<'a>(kind: Option<Kind>) -> ValueRef<'a>
    ensures value { value_of result ≡ kind_param kind }
{
    match kind {
        Some(kind) => ValueRef::Int(u64::from(kind.number()) as i64),
        None => ValueRef::Null,
    }
}

/// The day of a night, if one is named.
fn night_value<'a>(night: Option<Night>) -> ValueRef<'a>
    ensures value { value_of result ≡ night_param night }
{
    match night {
        Some(night) => ValueRef::Int(u64::from(night.day()) as i64),
        None => ValueRef::Null,
    }
}

/// The text of a supplier or a product, if one is named.
fn name_value(name: &Option<Code>) -> ValueRef<'_>
    ensures value { value_of result ≡ name_param name.now }
{
    match name {
        Some(code) => ValueRef::Text(code.as_str().as_bytes()),
        None => ValueRef::Null,
    }
}

/// Starts to read the options that hold places of the cells that a filter lets through: in order of night, kind, supplier
/// and product, and of one cell in order of journey, step and option. If that fails, nothing has changed.
pub fn hand_holdings<'a, S: Alter>(
    conn: &'a mut Connection<S>,
    filter: &CellFilter,
) -> Result<Rows<'a, S>, Error>
    ensures* fault { sem 𝓛 (LeavesIfErr S.row S.Store conn.entry result) }
    ensures started { IfOk result (λ it.
        StartsOver S.Store conn.entry it (ListsHoldings filter.now) (HoldingsRest S.Store)) }
{
    conn.query(
        "SELECT stock.kind, stock.supplier, stock.product, stock.night, stock.allot, stock.free, journey.id, journey.agent, journey.phase, step.places FROM stock, step, journey WHERE step.taken = 1 AND step.kind = coalesce(?1, step.kind) AND step.supplier = coalesce(?2, step.supplier) AND step.product = coalesce(?3, step.product) AND stock.night >= coalesce(?4, stock.night) AND stock.night <= coalesce(?5, stock.night) AND step.kind = stock.kind AND step.supplier = stock.supplier AND step.product = stock.product AND step.night <= stock.night AND stock.night < step.night + step.nights AND journey.id = step.journey ORDER BY stock.night, stock.kind, stock.supplier, stock.product, step.journey, step.place, step.opt",
        &[
            kind_value(filter.kind),
            name_value(&filter.supplier),
            name_value(&filter.product),
            night_value(filter.from),
            night_value(filter.to),
        ],
    )
}

/// The cell of a row.
fn read_cell(row: &Row) -> Result<CellFound, Error>
    ensures shown { IfOk result (λ c. shows_cell c ≡ six_of row.now) }

    ensures reason { (x : HoldingRow) → row.now ≡ holding_shown x → AreHoldingTexts x
        → IfErr result IsMemory }
{
    let kind = row.get(0)?;
    let supplier = row.get(1)?;
    let product = row.get(2)?;
    let night = row.get(3)?;
    let allot = row.get(4)?;
    let free = row.get(5)?;
    Ok(CellFound {
        kind,
        supplier,
        product,
        night,
        allot,
        free,
    })
}

/// The option of a row.
fn read_holding(row: &Row) -> Result<HoldingFound, Error>
    ensures shown { IfOk result (λ h. shows_holding h ≡ ten_of row.now) }

    ensures reason { (x : HoldingRow) → row.now ≡ holding_shown x → AreHoldingTexts x
        → IfErr result IsMemory }
{
    let cell = read_cell(row)?;
    let journey = row.get(6)?;
    let agent = row.get(7)?;
    let phase = row.get(8)?;
    let places = row.get(9)?;
    Ok(HoldingFound {
        cell,
        journey,
        agent,
        phase,
        places,
    })
}

/// Returns the next option of the rows that `hand_holdings` started; `None` after the last one.
pub fn next_holding<S: Alter>(rows: &mut Rows<'_, S>) -> Result<Option<HoldingFound>, Error>
    ensures same_reference { rows.new.conn.ghost_name ≡ rows.old.conn.ghost_name }
    ensures next { HasCleanDisk (state S.Store rows.new.conn.now) → IfOk result (λ found.
        Hands (HoldingsRest S.Store rows.old.conn.now)
        (HoldingsRest S.Store rows.new.conn.now) (option_map holding_found found)) }
    ensures reason { HasCleanDisk (state S.Store rows.new.conn.now) → (later : List HoldingRow)
        → HoldingsRest S.Store rows.old.conn.now later → Each AreHoldingTexts later
        → IsUp (state S.Store rows.old.conn.now)
        → IfErr result
        (HasReason (state S.Store rows.old.conn.now) (state S.Store rows.new.conn.now)) }
    ensures quiet { Quiet S.Store rows.old.conn.now rows.new.conn.now }
{
    rows.advance()?;
    match rows.get() {
        Some(row) => {
            let holding = read_holding(row)?;
            Ok(Some(holding))
        }
        None => Ok(None),
    }
}
