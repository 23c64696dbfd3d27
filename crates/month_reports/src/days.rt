//! Which cell goes on with a month.
ghost use Rattle.std.specs.Prelude.{◌≡◌, ◌≤◌};
ghost use Rattle.allotment.specs.Nights.{date_of};
ghost use Rattle.month_reports.specs.Months.{goes_on, is_later_day, is_product};

use allotment::{Cell, NightDate};

/// Whether the next cell goes on with the month of this one: a later night of the same product in the same month.
pub(crate) fn goes_on(cell: &Cell, next: &Cell) -> bool
    ensures next { result ≡ goes_on cell.now next.now }
    ensures short { (date_of next.now.night).1.1 ≤ 31 }
{
    is_product(cell, next) && is_later_day(cell.night.date(), next.night.date())
}

/// Whether the second date is a later day of the first one's month.
fn is_later_day(here: NightDate, there: NightDate) -> bool
    ensures later { result ≡ is_later_day (here.year, (here.month, here.day))
        (there.year, (there.month, there.day)) }
{
    here.year == there.year && here.month == there.month && here.day < there.day
}

/// Whether two cells are of one product.
fn is_product(cell: &Cell, next: &Cell) -> bool
    ensures product { result ≡ is_product cell.now next.now }
{
    cell.kind.number() == next.kind.number()
        && cell.supplier.as_str() == next.supplier.as_str()
        && cell.product.as_str() == next.product.as_str()
}
