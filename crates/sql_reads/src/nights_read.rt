//! Nights of a product that are read together: the cells of consecutive rows of a batch are often such nights.
ghost use Rattle.std.specs.Prelude.{◌≡◌, ◌≤◌, true, IfOk, IfSome};
ghost use Rattle.sql_reads.specs.NightsRead.{AreFew, AreRead, IsAmong, IsLater, held_at, nights_from};
ghost use Rattle.saga_core.specs.Views.{ShowsCells};
ghost use Rattle.sql_reads.specs.Reads.{Read};

use crate::telling::nights_told;
use allotment::{Cell, Held, Night, Row};
use commands::Fault;
use desk_sql::{NightRange, find_nights};
use sql_model::fault_of;
use sqlite::{Alter, Connection};
use std::alloc::Global;

/// The most nights that are read together.
const MOST_NIGHTS: u32 = 64;

/// Consecutive nights of a product, with the places of those that have an allotment.
#[derive(Drop)]
pub struct NightsRead {
    /// The first of the nights.
    pub first: Cell,
    /// How many nights were asked for, 1 to 64.
    pub count: u32,
    /// The places of those that have an allotment, in order of night.
    pub places: Vec<(Night, Held)>,
}

/// How many nights later a cell is than the first one, if it is of the same product.
fn nights_after(first: &Cell, cell: &Cell) -> Option<u32>
    ensures later { IfSome result (λ nights. IsLater first.now nights cell.now) }
{
    let from = first.night().day();
    let day = cell.night().day();
    if cell.kind().number() == first.kind().number()
        && cell.supplier().as_str() == first.supplier().as_str()
        && cell.product().as_str() == first.product().as_str()
        && from <= day
    {
        Some(day - from)
    } else {
        None
    }
}

/// How many nights to read with a cell: up to the last of the first later rows that are of its product, each of a
/// later night than the one before.
fn nights_together(cell: &Cell, later: &[Row]) -> u32
    ensures some { 1 ≤ result }
    ensures few { result ≤ 64 }
{
    let mut count = 1;
    for row in later {
        match nights_after(cell, &row.cell()) {
            Some(nights) if count <= nights && nights < MOST_NIGHTS => count = nights + 1,
            _ => return count,
        }
    }
    count
}

/// Returns the places of so many nights of a cell's product, from the cell's on, in order of night, without the nights that
/// have no allotment.
pub(crate) fn read_places<S: Alter>(
    alloc: Global,
    conn: &mut Connection<S>,
    first: &Cell,
    count: u32,
) -> Result<Vec<(Night, Held)>, Fault>
    requires { 1 ≤ count }

    ensures { Read S.Store conn.old conn.new result
        (λ s places. ShowsCells (nights_from first.now count) s places.items) }
{
    let supplier = first.supplier();
    let product = first.product();
    let from = u64::from(first.night().day());
    let range = NightRange {
        kind: u64::from(first.kind().number()),
        supplier: supplier.as_str(),
        product: product.as_str(),
        first: from,
        last: from + u64::from(count) - 1,
    };
    match find_nights(alloc, conn, range) {
        Ok(found) => nights_told(alloc, found.as_slice()),
        Err(error) => Err(fault_of(&error)),
    }
}

/// Returns the places of nights of a cell's product, from the cell's on, together with those of the later rows that follow.
fn read_nights<S: Alter>(
    alloc: Global,
    conn: &mut Connection<S>,
    first: Cell,
    later: &[Row],
) -> Result<NightsRead, Fault>
    ensures first { IfOk result (λ read. read.first ≡ first) }
    ensures few { IfOk result AreFew }
    ensures read { Read S.Store conn.old conn.new result AreRead }
{
    let count = nights_together(&first, later);
    let places = read_places(alloc, conn, &first, count)?;
    Ok(NightsRead {
        first,
        count,
        places,
    })
}

/// Returns nights among which a cell is, with their places: the given ones if it is among them. Otherwise nights are
/// read from the cell's on, together with those of the later rows that follow in order.
pub fn nights_with<S: Alter>(
    alloc: Global,
    conn: &mut Connection<S>,
    read: Option<NightsRead>,
    cell: &Cell,
    later: &[Row],
) -> Result<NightsRead, Fault>
    ensures among { IfOk result (λ nights. IsAmong nights cell.now) }
    ensures few { IfOk result (λ nights. IfSome read AreFew → AreFew nights) }
    ensures read { Read S.Store conn.old conn.new result
        (λ s nights. IfSome read (AreRead s) → AreRead s nights) }
{
    match read {
        Some(nights) if nights.has(cell) => Ok(nights),
        _ => read_nights(alloc, conn, *cell, later),
    }
}

impl NightsRead {
    /// Whether a cell is one of the nights.
    fn has(&self, cell: &Cell) -> bool
        ensures has { result ≡ true → IsAmong self.now cell.now }
    {
        match nights_after(&self.first, cell) {
            Some(nights) => nights < self.count,
            None => false,
        }
    }

    /// How many places of a night journeys hold: none of one that has no allotment.
    pub fn held(&self, night: Night) -> u32
        ensures held { result ≡ held_at night self.now.places.items }
    {
        let all = self.places.as_slice();
        match all.iter().find(|(at, _)| at.day() == night.day()) {
            Some((_, places)) => places.held(),
            None => 0,
        }
    }
}
