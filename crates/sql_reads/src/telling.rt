//! The desk's values for the rows of the tables. A row with a value out of range has none.
ghost use Rattle.std.specs.Prelude.{◌≡◌, ◌≤◌, ◌==◌, ℕ, IfErr, IfOk, IfSome, IsSome, IsTrue, string_bytes};
ghost use Rattle.std.specs.List.{AllByRecursion, list_any};
ghost use Rattle.allotment.specs.Cells.{kind_number};
ghost use Rattle.allotment.specs.Limits.{is_between, is_night, most_places};
ghost use Rattle.commands.specs.Names.{is_agent};
ghost use Rattle.plan.specs.Marks.{is_taken_in, last_mark, AreInRange};
ghost use Rattle.saga_core.specs.Views.{night_said};
ghost use Rattle.desk_sql.specs.FoundRows.{item_of};
ghost use Rattle.desk_sql.specs.Stock.{stock_of};
ghost use Rattle.sql_model.specs.Reading.{cursor_in, phase_in, cause_in, item_in, night_seen, stock_row_of};
ghost use Rattle.sql_reads.specs.GoodRows.{IsGoodNight, IsGoodStock, IsMemory};
ghost use Rattle.sql_reads.specs.Reading.{row_of, TellsBrief, TellsStand, TellItems, TellNights};

use crate::reads::Stand;
use allotment::{Cell, Code, Held, Kind, MOST_PLACES, Night};
use commands::{Agent, Cause, Cursor, Fault, Item, Phase};
use desk_sql::{CellFound, Cursor as CursorFound, ItemFound, JourneyFound, NightFound};
use plan::{LAST_MARK, Marks};
use saga_core::Brief;
use std::alloc::Global;

/// The phase with this number and target.
fn phase_of(number: u64, target: u64) -> Option<Phase>
    ensures { result ≡ phase_in number target }
{
    match number {
        0 => Some(Phase::Run),
        1 => Some(Phase::Back(target as usize)),
        2 => Some(Phase::Ended),
        3 => Some(Phase::Undone),
        _ => None,
    }
}

/// The cursor of a row.
fn cursor_of(found: &CursorFound) -> Option<Cursor>
    ensures { result ≡ cursor_in (row_of found.now) }
{
    let phase = phase_of(found.phase, found.target)?;
    Some(Cursor {
        pos: found.pos as usize,
        phase,
        used: found.used as usize,
    })
}

/// The brief of a journey.
pub fn brief_of(found: &JourneyFound) -> Option<Brief>
    ensures told { IfSome result (TellsBrief found.now) }
    ensures there { IsTrue (is_agent (string_bytes found.now.agent))
        → IsSome (cursor_in (row_of found.now.cursor)) → IsSome result }
{
    let agent = Agent::parse(found.agent.as_str())?;
    let cursor = cursor_of(&found.cursor)?;
    Some(Brief {
        id: found.id,
        agent,
        cursor,
    })
}

/// The agent, the number of steps, the tries and the cursor of a journey.
pub(crate) fn stand_of(found: &JourneyFound) -> Option<Stand>
    ensures told { IfSome result (TellsStand found.now) }
    ensures there { IsTrue (is_agent (string_bytes found.now.agent))
        → IsSome (cursor_in (row_of found.now.cursor)) → IsSome result }
{
    let agent = Agent::parse(found.agent.as_str())?;
    let cursor = cursor_of(&found.cursor)?;
    Some(Stand {
        agent,
        steps: found.steps as usize,
        tries: found.tries,
        cursor,
    })
}

/// The cause of a turn with this number.
fn cause_of(number: u64) -> Option<Cause>
    ensures { result ≡ cause_in number }
{
    match number {
        0 => Some(Cause::Stop),
        1 => Some(Cause::Refused),
        2 => Some(Cause::Asked),
        _ => None,
    }
}

/// The item of a row.
pub(crate) fn item_told(found: &ItemFound) -> Option<Item>
    ensures { result ≡ item_in (item_of 0 found.now) }
{
    let first = found.a as usize;
    let second = found.b as usize;
    match found.item {
        0 => Some(Item::Transaction {
            step: first,
            option: second,
        }),
        1 => Some(Item::Compensation {
            step: first,
            option: second,
        }),
        2 => {
            let cause = cause_of(found.b)?;
            Some(Item::Turn {
                target: first,
                cause,
            })
        }
        3 => Some(Item::Save { position: first }),
        _ => None,
    }
}

/// The items of rows.
pub(crate) fn items_told(alloc: Global, found: &[ItemFound]) -> Result<Vec<Item>, Fault>
    ensures told { IfOk result (λ items. TellItems found.now items.items) }
    ensures there { AllByRecursion (λ i. IsSome (item_in (item_of 0 i))) found.now →
        IfErr result IsMemory }
{
    let mut items = Vec::new(alloc);
    for row in found {
        let Some(item) = item_told(row) else {
            return Err(Fault::Store);
        };
        if items.push(item).is_err() {
            return Err(Fault::Memory);
        }
    }
    Ok(items)
}

/// The night of a day.
fn night_of(day: u64) -> Option<Night>
    ensures told { IfSome result (λ night. night ≡ day) }
    ensures there { IsTrue (is_night day) → IsSome result }
{
    if day > u64::from(u32::MAX) {
        return None;
    }
    Night::from_day(day as u32)
}

/// The places of a cell: how many are allotted, and how many of them are free.
fn places_of(allot: u64, free: u64) -> Option<Held>
    ensures told { IfSome result (λ places. (places.allot ≡ allot) × (places.free ≡ free)) }
    ensures there { allot ≤ most_places → free ≤ allot → IsSome result }
{
    if allot > u64::from(MOST_PLACES) || free > allot {
        return None;
    }
    Some(Held {
        allot: allot as u32,
        free: free as u32,
    })
}

/// A night and its places.
fn night_told(found: &NightFound) -> Option<(Night, Held)>
    ensures told { IfSome result (λ n. night_said n ≡ night_seen found.now) }
    ensures there { IsGoodNight (night_seen found.now) → IsSome result }
{
    let night = night_of(found.night)?;
    let places = places_of(found.allot, found.free)?;
    Some((night, places))
}

/// The nights of rows, with their places.
pub(crate) fn nights_told(alloc: Global, found: &[NightFound]) -> Result<Vec<(Night, Held)>, Fault>
    ensures told { IfOk result (λ nights. TellNights found.now nights.items) }
    ensures there { AllByRecursion (λ n. IsGoodNight (night_seen n)) found.now →
        IfErr result IsMemory }
{
    let mut nights = Vec::new(alloc);
    for row in found {
        let Some(night) = night_told(row) else {
            return Err(Fault::Store);
        };
        if nights.push(night).is_err() {
            return Err(Fault::Memory);
        }
    }
    Ok(nights)
}

/// The kind with this number.
fn kind_of(number: u64) -> Option<Kind>
    ensures told { IfSome result (λ kind. kind_number kind ≡ number) }
    ensures there { (kind : Kind) → kind_number kind ≡ number → IsSome result }
{
    match number {
        0 => Some(Kind::Flight),
        1 => Some(Kind::Room),
        2 => Some(Kind::Transfer),
        3 => Some(Kind::Cover),
        _ => None,
    }
}

/// A cell and its places.
pub fn cell_told(found: &CellFound) -> Option<(Cell, Held)>
    ensures told { IfSome result (λ c. stock_row_of c ≡ stock_of found.now) }
    ensures there { IsGoodStock (stock_of found.now) → IsSome result }
{
    let kind = kind_of(found.kind)?;
    let supplier = Code::parse(found.supplier.as_str())?;
    let product = Code::parse(found.product.as_str())?;
    let night = night_of(found.night)?;
    let places = places_of(found.allot, found.free)?;
    Some((Cell::new(kind, supplier, product, night), places))
}

/// The save-points at these positions.
pub(crate) fn marks_told(found: &[u64]) -> Option<Marks>
    ensures says { IfSome result (λ marks. (p : ℕ)
        → is_taken_in marks p ≡ list_any (λ q. q == p) found.now) }
    ensures low { IfSome result AreInRange }
    ensures there { AllByRecursion (λ p. IsTrue (is_between 1 last_mark p)) found.now →
        IsSome result }
{
    let mut marks = Marks::none();
    for at in found {
        if *at == 0 || *at > LAST_MARK as u64 {
            return None;
        }
        marks.add(*at as usize);
    }
    let _in_range = marks.has(0);
    Some(marks)
}
