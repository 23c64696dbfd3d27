//! What is free of each night of a want.
ghost use Rattle.std.specs.Prelude.{◌≡◌, ◌≢◌, ◌==◌, ℕ, List, Some, IfErr, IfOk, find, map};
ghost use Rattle.std.specs.List.{list_all};
ghost use Rattle.std.specs.Option.{option_copied};
ghost use Rattle.allotment.specs.Cells.{is_cell};
ghost use Rattle.allotment.specs.declared.cells.Cell.{Cell};
ghost use Rattle.allotment.specs.declared.places.Held.{Held};
ghost use Rattle.ledger.specs.Ledger.{Event, fits, IsLegal};
ghost use Rattle.saga_core.specs.Views.{night_said, places_at, places_shown};
ghost use Rattle.previews.specs.Nights.{has_room, night_among, night_with, nights_among, nights_in, nights_of};
ghost use Rattle.reports.specs.Writing.{Takes};

use allotment::{Cell, Held, Night, Want};
use reports::{ReportFault, take_rows};
use saga_core::RowSource;
use std::alloc::{AllocError, Global};

/// A night of a want, and how many of its places are free.
#[derive(Clone, Copy, Debug, PartialEq, Eq)]
pub struct FreeNight {
    pub night: Night,
    /// `None` if the night is not allotted.
    pub free: Option<u32>,
}

/// Whether two cells are the same.
fn is_cell(cell: &Cell, other: &Cell) -> bool
    ensures same { result ≡ is_cell cell.now other.now }
{
    cell.kind.number() == other.kind.number()
        && cell.supplier.as_str() == other.supplier.as_str()
        && cell.product.as_str() == other.product.as_str()
        && cell.night == other.night
}

/// The first cell of a list that is this one.
fn find_cell<'a>(cells: &'a [(Cell, Held)], cell: &Cell) -> Option<&'a (Cell, Held)>
    ensures first { option_copied result
        ≡ find (λ (r : Cell × Held). is_cell cell.now r.0) cells.now }
{
    cells.iter().find(|row| is_cell(cell, &row.0))
}

/// The night of a cell, and what is free of it by the cells of a list.
fn night_of(cells: &[(Cell, Held)], cell: &Cell) -> FreeNight
    ensures night { result ≡ night_with cell.now (places_at cells.now cell.now) }
{
    let night = cell.night;
    match find_cell(cells, cell) {
        Some(row) => FreeNight {
            night,
            free: Some(row.1.free),
        },
        None => FreeNight { night, free: None },
    }
}

/// The nights of a want in order, each with what is free of it by the cells of a list.
fn free_nights(
    alloc: Global,
    want: &Want,
    cells: &[(Cell, Held)],
) -> Result<Vec<FreeNight>, AllocError>
    ensures nights { IfOk result (λ nights. nights.items ≡ nights_in cells.now want.now) }
{
    want.cells()
        .map(|cell| night_of(cells, &cell))
        .collect(alloc)
}

/// The first night of a list that is this one.
fn find_night<'a>(places: &'a [(Night, Held)], night: Night) -> Option<&'a (Night, Held)>
    ensures first { option_copied result
        ≡ find (λ (n : ℕ × Held). n.0 == night) places.now }
{
    places.iter().find(|row| row.0 == night)
}

/// A night, and what is free of it by a list of nights with their places.
fn night_among(places: &[(Night, Held)], night: Night) -> FreeNight
    ensures night { result ≡ night_among places.now night }
{
    match find_night(places, night) {
        Some(place) => FreeNight {
            night,
            free: Some(place.1.free),
        },
        None => FreeNight { night, free: None },
    }
}

/// The nights of a want in order, each with what is free of it by a list of nights with their places.
fn nights_among(
    alloc: Global,
    want: &Want,
    places: &[(Night, Held)],
) -> Result<Vec<FreeNight>, AllocError>
    ensures nights { IfOk result (λ nights. nights.items ≡ nights_among places.now want.now) }
{
    want.cells()
        .map(|cell| night_among(places, cell.night))
        .collect(alloc)
}

/// The nights of a want in order, each with what is free of it, by the places that a book shows of the want: those of its
/// nights that are allotted. The only fault is out of memory.
#[tactic(auto, using(crate::proofs::NightLemmas::nights_by_shown))]
pub fn nights_shown(
    alloc: Global,
    want: &Want,
    places: &[(Night, Held)],
) -> Result<Vec<FreeNight>, AllocError>
    ensures nights { (l : List Event) → map night_said places.now ≡ places_shown l want.now →
        IfOk result (λ nights. nights.items ≡ nights_of l want.now) }
{
    nights_among(alloc, want, places)
}

/// Reads the cells of a source, and returns the nights of a want in order, each with what is free of it by these cells.
pub fn read_nights<R: RowSource<(Cell, Held)>>(
    alloc: Global,
    want: &Want,
    rows: &mut R,
) -> Result<Vec<FreeNight>, ReportFault>
    ensures nights { R.is_sound rows.new → (all : List (Cell × Held)) → R.rests rows.old all →
        IfOk result (λ nights. nights.items ≡ nights_in all want.now) }

    ensures no_write { IfErr result (λ fault. fault ≢ ReportFault.Write) }

    ensures takes { Takes R.RowSource rows.old rows.new result }
{
    let cells = take_rows(alloc, rows, usize::MAX)?;
    let nights = free_nights(alloc, want, cells.as_slice())?;
    Ok(nights)
}

/// Whether a night is allotted and has so many free places.
fn has_room(night: &FreeNight, count: u32) -> bool
    ensures room { result ≡ has_room count night.now }
{
    match night.free {
        Some(free) => count <= free,
        None => false,
    }
}

/// Whether each night is allotted and has so many free places.
fn have_room(nights: &[FreeNight], count: u32) -> bool
    ensures room { result ≡ list_all (has_room count) nights.now }
{
    nights.iter().all(|night| has_room(night, count))
}

/// Whether a want fits, by what is free of its nights.
#[tactic(auto, using(crate::proofs::NightLemmas::fits_by_nights))]
pub(crate) fn fits_nights(want: &Want, nights: &[FreeNight]) -> bool
    ensures fits { (l : List Event) → IsLegal l → nights.now ≡ nights_of l want.now →
        result ≡ fits l (Some want.now) }
{
    have_room(nights, u32::from(want.count()))
}
