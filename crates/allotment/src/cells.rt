//! Cells, and rows of allotment files, with their texts.
ghost use Rattle.allotment.specs.Texts.{cell_in_four, IsCut, IsOnePart};
ghost use Rattle.std.specs.Prelude.{◌≡◌, MatchOption};

use crate::codes::{Code, Kind};
use crate::nights::Night;
use std::alloc::{AllocError, Global};
use std::fmt;
use std::marker::Model;

/// One night of a supplier's product.
#[derive(Clone, Copy, Debug, PartialEq, Eq)]
pub struct Cell {
    pub kind: Kind,
    pub supplier: Code,
    pub product: Code,
    pub night: Night,
}

impl Cell {
    ghost use Rattle.std.specs.Prelude.{◌≡◌, IfOk, string_bytes};
    ghost use Rattle.allotment.specs.Cells.{the_cell};
    ghost use Rattle.allotment.specs.Texts.{cell_in, cell_text};

    /// The cell of a product at a night.
    pub fn new(kind: Kind, supplier: Code, product: Code, night: Night) -> Cell
        ensures { result ≡ the_cell kind supplier product night }
    {
        Cell {
            kind,
            supplier,
            product,
            night,
        }
    }

    /// Reads a cell from `KIND/SUPPLIER/PRODUCT/NIGHT`. Returns `None` for any other text.
    pub fn parse(text: &str) -> Option<Cell>
        ensures { result ≡ cell_in text.now }
    {
        let (kind, behind_kind) = cut(text)?;
        let (supplier, behind_supplier) = cut(behind_kind)?;
        let (product, night) = cut(behind_supplier)?;
        if cut(night).is_some() {
            return None;
        }
        from_parts(kind, supplier, product, night)
    }

    /// What is sold.
    pub fn kind(&self) -> Kind
        ensures { result ≡ self.now.kind }
    {
        self.kind
    }

    /// Who sells it.
    pub fn supplier(&self) -> Code
        ensures { result ≡ self.now.supplier }
    {
        self.supplier
    }

    /// Which of the supplier's products it is.
    pub fn product(&self) -> Code
        ensures { result ≡ self.now.product }
    {
        self.product
    }

    /// The night, from 2000-01-01 to 2099-12-31.
    pub fn night(&self) -> Night
        ensures { result ≡ self.now.night }
    {
        self.night
    }

    /// The text of the cell, `KIND/SUPPLIER/PRODUCT/NIGHT`. The only fault is out of memory.
    pub fn text(&self, alloc: Global) -> Result<String, AllocError>
        ensures { IfOk result (λ text. string_bytes text ≡ cell_text self.now) }
    {
        format!(in alloc; "{self}")
    }
}

impl fmt::Display for Cell {
    ghost use Rattle.std.specs.Prelude.{Some};
    ghost use Rattle.allotment.specs.Texts.{cell_text};

    ghost output = { λ x. Some (cell_text x) };

    fn fmt<W: fmt::Write>(&self, f: &mut fmt::Formatter<W>) -> fmt::Result {
        let Cell {
            kind,
            supplier,
            product,
            night,
        } = *self;
        let letter = kind.letter();
        write!(f, "{letter}/{supplier}/{product}/{night}")
    }
}

/// How many places of a cell a supplier allots, 0 to 100,000. To a contract it is the record of its parts.
#[derive(Clone, Copy, Debug, PartialEq, Eq)]
pub struct Row {
    pub cell: Cell,
    pub places: u32,
}

impl Model for Row {
    ghost use Rattle.std.specs.Prelude.{◌≤◌};
    ghost use Rattle.allotment.specs.Rows.{Allotted, allotted};
    ghost use Rattle.allotment.specs.Limits.{most_places};

    ghost Value = { Allotted };

    ghost view = { λ a. allotted a.cell a.places };

    ghost invariant = { λ a. a.places ≤ most_places };

    ghost inverse = { λ row. record { cell = row.cell; places = row.places } };
}

impl Row {
    ghost use Rattle.std.specs.Prelude.{◌≡◌, ◌≤◌, IfOk, string_bytes};
    ghost use Rattle.allotment.specs.Limits.{most_places};
    ghost use Rattle.allotment.specs.Rows.{allotted};
    ghost use Rattle.allotment.specs.Texts.{row_text};

    /// The row of a cell, with its places. The precondition says that these are at most 100,000.
    pub fn new(cell: Cell, places: u32) -> Row
        requires { places ≤ most_places }
        ensures { result ≡ allotted cell places }
    {
        Row { cell, places }
    }

    /// The cell.
    pub fn cell(&self) -> Cell
        ensures { result ≡ self.now.cell }
    {
        self.cell
    }

    /// How many places of it, 0 to 100,000.
    pub fn places(&self) -> u32
        ensures places { result ≡ self.now.places }
        ensures limits { self.now.places ≤ most_places }
    {
        self.places
    }

    /// The text of the row, `KIND/SUPPLIER/PRODUCT/NIGHT/PLACES`. The only fault is out of memory.
    pub fn text(&self, alloc: Global) -> Result<String, AllocError>
        ensures { IfOk result (λ text. string_bytes text ≡ row_text self.now) }
    {
        format!(in alloc; "{self}")
    }
}

impl fmt::Display for Row {
    ghost use Rattle.std.specs.Prelude.{Some};
    ghost use Rattle.allotment.specs.Texts.{row_text};

    ghost output = { λ row. Some (row_text row) };

    fn fmt<W: fmt::Write>(&self, f: &mut fmt::Formatter<W>) -> fmt::Result {
        let Row { cell, places } = *self;
        write!(f, "{cell}/{places}")
    }
}

/// The cell of a kind's letter, two codes and a night.
fn from_parts(kind: &str, supplier: &str, product: &str, night: &str) -> Option<Cell>
    ensures { result ≡ cell_in_four kind.now supplier.now product.now night.now }
{
    let kind = Kind::from_letter(kind)?;
    let supplier = Code::parse(supplier)?;
    let product = Code::parse(product)?;
    let night = Night::parse(night).ok()?;
    Some(Cell {
        kind,
        supplier,
        product,
        night,
    })
}

/// The text before the first `/`, and the text after it. Returns `None` if there is no `/`.
pub fn cut(text: &str) -> Option<(&str, &str)>
    ensures { MatchOption result (IsOnePart text.now) (λ p. IsCut text.now p.0.now p.1.now) }
{
    text.split_once('/')
}
