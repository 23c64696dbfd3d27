//! The places of all cells, by cell.
ghost use Rattle.std.specs.Prelude.{◌≡◌};
ghost use Rattle.saga_core.specs.Views.{places_said};
ghost use Rattle.memory_book.specs.MemoryStock.{changed_by};

use allotment::{Cell, Held, Night, Row, Want, give};
use commands::CellKey;
use std::alloc::{AllocError, Global};
use std::collections::BTreeMap;

/// How an item changes the places of its want's cells.
#[derive(Clone, Copy)]
pub enum Change {
    /// Takes so many, or as many as are free.
    Take,
    /// Gives so many back, if so many are held.
    GiveBack,
}

/// The places of a cell after a change.
fn changed(held: Held, count: u32, change: Change) -> Held
    ensures changed { places_said result ≡ changed_by change count (places_said held) }
{
    match change {
        Change::Take => Held {
            allot: held.allot,
            free: held.free.saturating_sub(count),
        },
        Change::GiveBack if count <= held.held() => give(held, count),
        Change::GiveBack => held,
    }
}

/// The places of each cell that was ever loaded.
#[derive(Drop)]
pub struct Stock {
    places: BTreeMap<CellKey, Held>,
}

impl Stock {
    ghost use Rattle.std.specs.Prelude.{◌≡◌, None, IfOk, option_map, position, map, filter_map, IsSome, if◌then◌else◌, Some};
    ghost use Rattle.std.specs.BTreeMap.{IsOrdered};
    ghost use Rattle.allotment.specs.Cells.{is_cell, cells_of};
    ghost use Rattle.allotment.specs.declared.cells.Cell.{Cell};
    ghost use Rattle.saga_core.specs.Views.{places_said, night_said, at_night};
    ghost use Rattle.memory_book.specs.MemoryStock.{cell_key_cmp, stock_at, has_free_in, fits_in_stock};
    ghost use Rattle.memory_book.specs.MemoryStock.{changed_by, ChangesOne, ChangesEach};
    ghost use Rattle.memory_book.specs.MemoryStock.{is_below_in, set_to, LoadsRows};

    /// A stock in which no cell was loaded.
    pub fn new(alloc: Global) -> Stock
        ensures none { (x : Cell) → stock_at result x ≡ None }
    {
        Stock {
            places: BTreeMap::new(alloc),
        }
    }

    /// The places of a cell. Returns `None` if it was never loaded.
    pub fn get(&self, cell: &Cell) -> Option<Held>
        ensures places { option_map places_said result ≡ stock_at self.now cell.now }
    {
        self.places.get(&CellKey { cell: *cell }).copied()
    }

    /// Whether so many places of a cell are free.
    fn has_free(&self, cell: &Cell, count: u32) -> bool
        ensures free { result ≡ has_free_in self.now count cell.now }
    {
        match self.get(cell) {
            Some(held) => count <= held.free,
            None => false,
        }
    }

    /// Whether each cell of the want has its count of free places.
    pub fn fits(&self, want: &Want) -> bool
        ensures fits { result ≡ fits_in_stock self.now want.now }
    {
        let count = u32::from(want.count());
        want.cells().all(|cell| self.has_free(&cell, count))
    }

    /// Replaces the places of a cell that was loaded.
    fn put(&mut self, cell: &Cell, held: Held)
        requires there { IsSome (stock_at self.old cell.now) }

        ensures put { (x : Cell) → stock_at self.new x
            ≡ (if is_cell x cell.now then Some (places_said held) else stock_at self.old x) }
    {
        match self.places.insert(CellKey { cell: *cell }, held) {
            Ok(_) => {}
            Err(_) => unreachable!(),
        }
    }

    /// Changes the places of a cell, if it was loaded.
    fn change_one(&mut self, cell: &Cell, count: u32, change: Change)
        ensures changed { ChangesOne (changed_by change count) cell.now self.old self.new }
    {
        let Some(held) = self.get(cell) else {
            return;
        };
        self.put(cell, changed(held, count, change));
    }

    /// Changes the places of each cell of a want by its count.
    pub fn change(&mut self, want: &Want, change: Change)
        ensures changed { ChangesEach (changed_by change) want.now self.old self.new }
    {
        let count = u32::from(want.count());
        for cell in want.cells() {
            self.change_one(&cell, count, change);
        }
    }

    /// Whether the row has fewer places than journeys hold of its cell.
    fn is_below_held(&self, row: &Row) -> bool
        ensures below { result ≡ is_below_in self.now row.now }
    {
        match self.get(&row.cell()) {
            Some(held) => row.places() < held.held(),
            None => false,
        }
    }

    /// The index, from 0, of the first row that has fewer places than journeys hold of its cell.
    pub fn first_below_held(&self, rows: &[Row]) -> Option<usize>
        ensures first { result ≡ position (is_below_in self.now) rows.now }
    {
        rows.iter().position(|row| self.is_below_held(row))
    }

    /// The places of a row's cell after the row is loaded. Places that journeys hold stay held, if the row has as many.
    fn set_to(&self, row: &Row) -> Held
        ensures set { places_said result ≡ set_to self.now row.now.cell row.now.places }
    {
        let places = row.places();
        match self.get(&row.cell()) {
            None => Held {
                allot: places,
                free: places,
            },
            Some(held) => Held {
                allot: places,
                free: places.saturating_sub(held.held()),
            },
        }
    }

    /// The stock after these rows are loaded. The only fault is out of memory.
    pub fn loaded(&self, rows: &[Row]) -> Result<Stock, AllocError>
        ensures loaded { IfOk result (λ stock. LoadsRows self.now stock rows.now) }
    {
        let mut places = self.places.clone()?;
        for row in rows {
            places.insert(CellKey { cell: row.cell() }, self.set_to(row))?;
        }
        Ok(Stock { places })
    }

    /// The nights of a want that were loaded, with their places. The only fault is out of memory.
    pub fn nights_of(&self, alloc: Global, want: &Want) -> Result<Vec<(Night, Held)>, AllocError>
        ensures nights { IfOk result (λ nights. map night_said nights.items
            ≡ filter_map (λ x. option_map (at_night x) (stock_at self.now x)) (cells_of want.now)) }
    {
        let mut nights = Vec::new(alloc);
        for cell in want.cells() {
            if let Some(held) = self.get(&cell) {
                nights.push((cell.night(), held))?;
            }
        }
        Ok(nights)
    }

    /// All cells with their places, in order. The only fault is out of memory.
    pub fn rows(&self, alloc: Global) -> Result<Vec<(Cell, Held)>, AllocError>
        ensures rows { IfOk result (λ rows. rows.items
            ≡ map (λ e. (e.0.cell, e.1)) self.now.places.entries) }
        ensures ordered { IsOrdered cell_key_cmp self.now.places }
    {
        self.places
            .iter()
            .map(|(key, held)| (key.cell, *held))
            .collect(alloc)
    }
}
