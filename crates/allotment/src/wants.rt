//! Wants: so many places of a product for some consecutive nights; their cells, and what is wrong with a text of one.
ghost use Rattle.allotment.specs.Limits.{are_nights as may_have_nights, is_count as may_be_count};
ghost use Rattle.std.specs.Prelude.{◌≡◌};

use crate::cells::Cell;
use crate::codes::{Code, Kind};
use crate::limits::MOST_COUNT;
use crate::nights::Night;
use std::alloc::{AllocError, Global};
use std::fmt;
use std::marker::Model;

/// So many places of each of some consecutive nights. To a contract it is the record of its parts.
#[derive(Clone, Copy, Debug, PartialEq, Eq)]
pub struct Want {
    kind: Kind,
    supplier: Code,
    product: Code,
    first: Night,
    nights: u8,
    count: u8,
}

impl Model for Want {
    ghost use Rattle.std.specs.Prelude.{IsTrue};
    ghost use Rattle.allotment.specs.Want.{Wanted, wanted};

    ghost Value = { Wanted };

    ghost use Rattle.allotment.specs.Limits.{is_want};

    ghost view = { λ a. wanted a.kind a.supplier a.product a.first a.nights a.count };

    ghost invariant = { λ a.
        IsTrue (is_want (wanted a.kind a.supplier a.product a.first a.nights a.count)) };

    ghost inverse = { λ w. record {
      kind = w.kind;
      supplier = w.supplier;
      product = w.product;
      first = w.first;
      nights = w.nights;
      count = w.count;
    } };
}

impl Want {
    ghost use Rattle.std.specs.Prelude.{◌≡◌, IfOk, IsTrue, string_bytes};
    ghost use Rattle.allotment.specs.Cells.{cells_of};
    ghost use Rattle.allotment.specs.Limits.{is_want};
    ghost use Rattle.allotment.specs.Making.{want_made};
    ghost use Rattle.allotment.specs.Texts.{want_text};

    /// Makes a want of its parts, or returns the first thing that is wrong with them, in the order of `Bad`. The caller
    /// may pass 0 for a number that was misspelt: 0 is out of range for nights and for a count.
    pub fn new(
        kind: Kind,
        supplier: &str,
        product: &str,
        first: &str,
        nights: u64,
        count: u64,
    ) -> Result<Want, Bad>
        ensures { result ≡ want_made kind supplier.now product.now first.now nights count }
    {
        let supplier = Code::parse(supplier).ok_or(Bad::Code)?;
        let product = Code::parse(product).ok_or(Bad::Code)?;
        let first = Night::parse(first)?;
        if !are_nights(kind, first, nights) {
            return Err(Bad::Nights);
        }
        if !is_count(count) {
            return Err(Bad::Count);
        }
        Ok(Want {
            kind,
            supplier,
            product,
            first,
            nights: nights as u8,
            count: count as u8,
        })
    }

    /// What is sold.
    pub fn kind(&self) -> Kind
        ensures kind { result ≡ self.now.kind }
        ensures limits { IsTrue (is_want self.now) }
    {
        self.kind
    }

    /// Who sells it.
    pub fn supplier(&self) -> Code
        ensures { result ≡ self.now.supplier }
    {
        self.supplier
    }

    /// Which of the supplier's products it is.
    pub fn product(&self) -> Code
        ensures { result ≡ self.now.product }
    {
        self.product
    }

    /// The first night.
    pub fn first(&self) -> Night
        ensures { result ≡ self.now.first }
    {
        self.first
    }

    /// How many nights, from the first one on: 1 to 60.
    pub fn nights(&self) -> u8
        ensures nights { result ≡ self.now.nights }
        ensures limits { IsTrue (is_want self.now) }
    {
        self.nights
    }

    /// How many places of each night, 1 to 50.
    pub fn count(&self) -> u8
        ensures { result ≡ self.now.count }
    {
        self.count
    }

    /// Its cells, by rising night.
    pub fn cells(&self) -> WantCells
        ensures { result ≡ cells_of self.now }
    {
        WantCells::new(self)
    }

    /// The text of the want, `KIND/SUPPLIER/PRODUCT/FIRST/NIGHTS/COUNT`. The only fault is out of memory.
    pub fn text(&self, alloc: Global) -> Result<String, AllocError>
        ensures { IfOk result (λ text. string_bytes text ≡ want_text self.now) }
    {
        format!(in alloc; "{self}")
    }
}

impl fmt::Display for Want {
    ghost use Rattle.std.specs.Prelude.{Some};
    ghost use Rattle.allotment.specs.Texts.{want_text};

    ghost output = { λ want. Some (want_text want) };

    fn fmt<W: fmt::Write>(&self, f: &mut fmt::Formatter<W>) -> fmt::Result {
        let Want {
            kind,
            supplier,
            product,
            first,
            nights,
            count,
        } = *self;
        let letter = kind.letter();
        write!(f, "{letter}/{supplier}/{product}/{first}/{nights}/{count}")
    }
}

/// Whether a want of this kind may have so many nights from this one on.
fn are_nights(kind: Kind, first: Night, nights: u64) -> bool
    ensures { result ≡ may_have_nights kind first nights }
{
    1 <= nights
        && nights <= u64::from(kind.most_nights())
        && Night::from_day(first.day() + nights as u32 - 1).is_some()
}

/// Whether a want may take so many places of each night.
fn is_count(count: u64) -> bool
    ensures { result ≡ may_be_count count }
{
    1 <= count && count <= MOST_COUNT
}

/// The cells of a want that are yet to be returned, by rising night. To a contract it is their list.
#[derive(Drop)]
pub struct WantCells {
    want: Want,
    /// The day of the next night.
    day: u32,
    /// How many nights are left.
    left: u8,
}

impl Model for WantCells {
    ghost use Rattle.std.specs.Prelude.{List, map};
    ghost use Rattle.allotment.specs.declared.cells.Cell.{Cell};

    ghost Value = { List Cell };

    ghost use Rattle.allotment.specs.Cells.{cell_at, numbers_from};
    ghost use Rattle.allotment.specs.Nights.{AreNights};

    ghost view = { λ a. map (cell_at a.want) (numbers_from a.day a.left) };

    ghost invariant = { λ a. AreNights a.day a.left };
}

impl WantCells {
    ghost use Rattle.std.specs.Prelude.{◌≡◌};
    ghost use Rattle.allotment.specs.Cells.{cells_of};

    /// An iterator over all cells of a want.
    pub fn new(want: &Want) -> WantCells
        ensures { result ≡ cells_of want.now }
    {
        WantCells {
            want: *want,
            day: want.first().day(),
            left: want.nights(),
        }
    }
}

impl Iterator for WantCells {
    ghost use Rattle.std.specs.Iterator.{YieldsFirst, item_count};

    type Item = Cell;

    ghost next_gives = { YieldsFirst (λ cells. cells) };

    ghost remaining = { item_count (λ cells. cells) };

    fn next(&mut self) -> Option<Cell> {
        if self.left == 0 {
            return None;
        }
        let night = Night::of_day(self.day);
        self.day += 1;
        self.left -= 1;
        Some(Cell::new(
            self.want.kind(),
            self.want.supplier(),
            self.want.product(),
            night,
        ))
    }
}

/// The first thing that is wrong, in this order.
#[derive(Clone, Copy, Debug, PartialEq, Eq)]
pub enum Bad {
    /// The supplier or the product is no code.
    Code,
    /// The first night is no night.
    Night,
    /// There are too few or too many nights for the kind, or the last of them is past 2099-12-31.
    Nights,
    /// The count is not from 1 to 50.
    Count,
}
