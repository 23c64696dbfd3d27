//! Batches of allotments, and which of their rows comes twice.
ghost use Rattle.commands.specs.Batches.{is_good_row, repeat_among};
ghost use Rattle.commands.specs.CellKeys.{is_above, rises, row_key};
ghost use Rattle.std.specs.List.{list_all};
ghost use Rattle.std.specs.Prelude.{IsTrue, ◌≡◌, ◌<◌, length, IfOk, IfSome};

use crate::limits::MOST_ROWS;
use crate::names::Name;
use allotment::{Cell, Row};
use std::alloc::{AllocError, Global};
use std::cmp::Ordering;
use std::collections::BTreeSet;
use std::marker::Model;

/// Why rows make no batch.
#[derive(Clone, Copy, Debug, PartialEq, Eq)]
pub enum BadBatch {
    /// There is no row, or there are more than 2,000.
    Count,
    /// Two rows have the same cell.
    Twice,
    /// Out of memory.
    Memory,
}

/// A name, and 1 to 2,000 rows, each of another cell. To a contract it is the record of these.
#[derive(Drop)]
pub struct Batch {
    name: Name,
    rows: Vec<Row>,
}

impl Model for Batch {
    ghost use Rattle.std.specs.Prelude.{IsTrue};
    ghost use Rattle.commands.specs.BatchData.{Batched};

    ghost Value = { Batched };

    ghost use Rattle.commands.specs.Batches.{is_batch};

    ghost view = { λ a. record { name = a.name; rows = a.rows.items } };

    ghost invariant = { λ a. IsTrue (is_batch a.name a.rows.items) };
}

impl Batch {
    ghost use Rattle.std.specs.Prelude.{◌≡◌, IsTrue, IfOk};
    ghost use Rattle.commands.specs.Batches.{batch_made, is_batch};
    ghost use Rattle.commands.specs.Making.{IsMade};

    /// Makes a batch of this name and these rows, or reports which limit they break: first `Count`, then `Twice`. The
    /// other fault is out of memory.
    #[tactic(auto, using(crate::proofs::RepeatLemmas::distinct_if_none, crate::proofs::RepeatLemmas::repeated_if_some))]
    pub fn new(alloc: Global, name: Name, rows: Vec<Row>) -> Result<Batch, BadBatch>
        ensures made { IsMade (batch_made name rows.items) result }
    {
        let _name = name.as_str();
        know_limits(&rows);
        if rows.is_empty() || rows.len() > MOST_ROWS {
            return Err(BadBatch::Count);
        }
        match first_repeat(alloc, &rows) {
            Ok(None) => Ok(Batch { name, rows }),
            Ok(Some(_)) => Err(BadBatch::Twice),
            Err(_) => Err(BadBatch::Memory),
        }
    }

    /// Makes a batch of rows that the precondition says keep the limits. Nothing is checked again.
    pub fn of_rows(name: Name, rows: Vec<Row>) -> Batch
        requires limits { IsTrue (is_batch name rows.items) }

        ensures name { result.name ≡ name }
        ensures rows { result.rows ≡ rows.items }
    {
        Batch { name, rows }
    }

    /// The name of the batch.
    pub fn name(&self) -> Name
        ensures name { result ≡ self.now.name }
    {
        self.name
    }

    /// The rows, in the order in which they were given.
    pub fn rows(&self) -> &[Row]
        ensures rows { result.now ≡ self.now.rows }

        ensures limits { IsTrue (is_batch self.now.name self.now.rows) }
    {
        &self.rows
    }

    /// A copy of the batch. The only fault is out of memory.
    pub fn clone(&self, alloc: Global) -> Result<Batch, AllocError>
        ensures same { IfOk result (λ batch. batch ≡ self.now) }
    {
        Ok(Batch {
            name: self.name,
            rows: Vec::from_slice(alloc, &self.rows)?,
        })
    }
}

/// A row keeps its limits: its type has no other value.
fn know_limit(row: &Row)
    ensures limits { IsTrue (is_good_row row.now) }
{
    let cell = row.cell();
    let _supplier = cell.supplier.as_str();
    let _product = cell.product.as_str();
    let _night = cell.night.day();
    let _places = row.places();
}

/// Each row keeps its limits: its type has no other value.
fn know_limits(rows: &[Row])
    ensures limits { IsTrue (list_all is_good_row rows.now) }
{
    for row in rows {
        know_limit(row);
    }
}

/// A cell, ordered by kind, supplier, product and night.
#[derive(Clone, Copy, PartialEq, Eq)]
pub struct CellKey {
    pub cell: Cell,
}

impl Ord for CellKey {
    ghost use Rattle.std.proofs.Common.{rules};
    ghost use Rattle.std.specs.Cmp.Rules.{comparing};
    ghost use Rattle.std.specs.Cmp.Lexicographic.{slice_cmp};
    ghost use Rattle.std.specs.Ordering.{nat_cmp, on, then_cmp};
    ghost use Rattle.allotment.specs.Cells.{kind_number};

    ghost cmp = { then_cmp (on (λ k. kind_number k.cell.kind) nat_cmp)
        (then_cmp (on (λ k. k.cell.supplier) (slice_cmp nat_cmp))
        (then_cmp (on (λ k. k.cell.product) (slice_cmp nat_cmp))
        (on (λ k. k.cell.night) nat_cmp))) };

    ghost total = { Prim.search (comparing, rules) };

    ghost matches_partial_cmp = { Prim.search (comparing, rules) };

    ghost matches_eq = { Prim.search (comparing, rules) };

    fn cmp(&self, other: &CellKey) -> Ordering {
        let one = self.cell;
        let two = other.cell;
        let kind = one.kind.number().cmp(&two.kind.number());
        let supplier = one.supplier.as_str().cmp(two.supplier.as_str());
        let product = one.product.as_str().cmp(two.product.as_str());
        let night = one.night.day().cmp(&two.night.day());
        kind.then(supplier.then(product.then(night)))
    }
}

impl PartialOrd for CellKey {
    ghost use Rattle.std.proofs.Common.{rules};
    ghost use Rattle.std.specs.Cmp.{partial_order_from_own_ties};
    ghost use Rattle.std.specs.Cmp.Rules.{comparing};
    ghost use Rattle.std.specs.Cmp.Lexicographic.{slice_cmp};
    ghost use Rattle.std.specs.Ordering.{nat_cmp, on, then_cmp, as_partial_cmp};
    ghost use Rattle.allotment.specs.Cells.{kind_number};

    ghost partial_cmp = { as_partial_cmp (then_cmp (on (λ k. kind_number k.cell.kind) nat_cmp)
        (then_cmp (on (λ k. k.cell.supplier) (slice_cmp nat_cmp))
        (then_cmp (on (λ k. k.cell.product) (slice_cmp nat_cmp))
        (on (λ k. k.cell.night) nat_cmp)))) };

    ghost laws = { partial_order_from_own_ties (Prim.search (comparing, rules) depth 9)
        (Prim.search (comparing, rules)) };

    fn partial_cmp(&self, other: &CellKey) -> Option<Ordering> {
        Some(self.cmp(other))
    }
}

/// The index, counted from 0, of the first row whose cell stands in an earlier row. The only fault is out of memory.
///
/// Rows in rising order of their cells are compared without allocating; otherwise the cells are put into a set.
pub fn first_repeat(alloc: Global, rows: &[Row]) -> Result<Option<usize>, AllocError>
    ensures repeat { IfOk result (λ place. place ≡ repeat_among rows.now) }
    ensures within { IfOk result (λ place. IfSome place (λ i. i < length rows.now)) }
{
    if are_rising(rows) {
        return Ok(None);
    }
    let mut seen = BTreeSet::new(alloc);
    for (i, row) in rows.iter().enumerate() {
        if !seen.insert(key_of(row))? {
            return Ok(Some(i));
        }
    }
    Ok(None)
}

/// Whether the cell of each row is above that of the row before it. Then no cell is repeated.
fn are_rising(rows: &[Row]) -> bool
    ensures rising { result ≡ rises rows.now }
{
    let mut last = None;
    for row in rows {
        if !is_above(last, key_of(row)) {
            return false;
        }
        last = Some(key_of(row));
    }
    true
}

/// Whether the cell is above the last one, where there is one.
fn is_above(last: Option<CellKey>, key: CellKey) -> bool
    ensures above { result ≡ is_above last key }
{
    match last {
        Some(before) => before < key,
        None => true,
    }
}

/// The cell of the row, as a key.
fn key_of(row: &Row) -> CellKey
    ensures key { result ≡ row_key row.now }
{
    CellKey { cell: row.cell() }
}
