//! The sums of the places of a month.
ghost use Rattle.std.specs.Prelude.{◌≡◌};
ghost use Rattle.month_reports.specs.Summaries.{sums_of};

use crate::months::MonthRead;

/// The most cells that a month may have: each is of a later day than the one before it.
pub(crate) const MOST_NIGHTS: usize = 31;

/// How many nights a month has, and their places in all: at most 31 nights, of at most 100,000 places each.
#[derive(Clone, Copy, Debug, PartialEq, Eq)]
pub(crate) struct Sums {
    pub(crate) nights: u64,
    pub(crate) allot: u64,
    pub(crate) held: u64,
    pub(crate) free: u64,
}

/// The sums of a month.
pub(crate) fn sums_of(month: &MonthRead) -> Sums
    ensures sums { result ≡ sums_of month.now.cells.items }
{
    let cells = month.cells.as_slice();
    let mut sums = Sums {
        nights: 0,
        allot: 0,
        held: 0,
        free: 0,
    };
    for row in cells {
        let places = row.1;
        sums.nights += 1;
        sums.allot += u64::from(places.allot);
        sums.held += u64::from(places.held());
        sums.free += u64::from(places.free);
    }
    sums
}
