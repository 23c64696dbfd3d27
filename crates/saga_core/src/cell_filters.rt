//! Which cells are asked for.
ghost use Rattle.std.specs.Prelude.{◌≡◌, ◌<◌, ◌^◌, true};
ghost use Rattle.allotment.specs.Cells.{kind_number};
ghost use Rattle.saga_core.specs.CellFilters.{first_day, is_cell_asked, is_kind_asked, is_name_asked, is_night_asked, last_day};

use allotment::{Cell, Code, Kind, Night};

/// The cells that a report shows. A value that is `None` lets each cell through.
#[derive(Clone, Copy, Debug, PartialEq, Eq)]
pub struct CellFilter {
    pub kind: Option<Kind>,
    pub supplier: Option<Code>,
    pub product: Option<Code>,
    /// The first night that is shown.
    pub from: Option<Night>,
    /// The last night that is shown.
    pub to: Option<Night>,
}

impl CellFilter {
    ghost use Rattle.allotment.specs.declared.cells.Cell.{Cell};

    /// The filter that lets every cell through.
    pub fn all() -> CellFilter
        ensures all { (cell : Cell) → is_cell_asked result cell ≡ true }
    {
        CellFilter {
            kind: None,
            supplier: None,
            product: None,
            from: None,
            to: None,
        }
    }

    /// Whether the cell is asked for.
    pub fn lets(&self, cell: &Cell) -> bool
        ensures asked { result ≡ is_cell_asked self.now cell.now }
    {
        self.lets_kind(cell.kind)
            && is_code_asked(self.supplier, cell.supplier)
            && is_code_asked(self.product, cell.product)
            && self.lets_night(cell.night)
    }

    /// Whether cells of the kind are asked for.
    pub fn lets_kind(&self, kind: Kind) -> bool
        ensures asked { result ≡ is_kind_asked self.now.kind (kind_number kind) }
    {
        match self.kind {
            Some(asked) => kind.number() == asked.number(),
            None => true,
        }
    }

    /// Whether cells of the night are asked for.
    pub fn lets_night(&self, night: Night) -> bool
        ensures asked { result ≡ is_night_asked self.now.from self.now.to night }
    {
        let day = night.day();
        let is_from = match self.from {
            Some(first) => first.day() <= day,
            None => true,
        };
        let is_to = match self.to {
            Some(last) => day <= last.day(),
            None => true,
        };
        is_from && is_to
    }

    /// The day of the first night that is asked for, counted from 1970-01-01 as 0; 0 if none is named.
    pub fn first_day(&self) -> u64
        ensures day { result ≡ first_day self.now.from }
        ensures small { result < 2 ^ 63 }
    {
        match self.from {
            Some(night) => u64::from(night.day()),
            None => 0,
        }
    }

    /// The day of the last night that is asked for; the greatest number of the store if none is named.
    pub fn last_day(&self) -> u64
        ensures day { result ≡ last_day self.now.to }
        ensures small { result < 2 ^ 63 }
    {
        match self.to {
            Some(night) => u64::from(night.day()),
            None => i64::MAX as u64,
        }
    }
}

/// Whether a supplier or a product is asked for.
fn is_code_asked(asked: Option<Code>, code: Code) -> bool
    ensures asked { result ≡ is_name_asked asked code }
{
    match asked {
        Some(asked) => code.as_str() == asked.as_str(),
        None => true,
    }
}
