//! Laws of months, for all lists of cells. A call does nothing at run time.
ghost use Rattle.std.specs.Prelude.{◌≡◌, ◌∷◌, List, IsTrue};
ghost use Rattle.allotment.specs.declared.cells.Cell.{Cell};
ghost use Rattle.allotment.specs.declared.places.Held.{Held};
ghost use Rattle.saga_core.specs.declared.cell_filters.CellFilter.{CellFilter};
ghost use Rattle.saga_core.specs.Views.{are_in_order};
ghost use Rattle.month_reports.specs.Examples.{on_29};
ghost use Rattle.month_reports.specs.Laws.{are_apart, cells_in, have_nights};
ghost use Rattle.month_reports.specs.MonthReports.{asked_months};
ghost use Rattle.month_reports.specs.Months.{months_of};

/// The months of a list have all its cells, in its order. In the order of the stock no two of them are of one product and
/// one month of the calendar: each month of a product is one run. So are the months of the cells that are asked for.
pub fn each_month_is_one_run()
    ensures whole { (rows : List (Cell × Held)) → cells_in (months_of rows) ≡ rows }
    ensures apart { (rows : List (Cell × Held)) → IsTrue (have_nights rows) →
        IsTrue (are_in_order rows) → IsTrue (are_apart (months_of rows)) }
    ensures asked { (f : CellFilter) → (rows : List (Cell × Held)) → IsTrue (have_nights rows) →
        IsTrue (are_in_order rows) → IsTrue (are_apart (asked_months f rows)) }
{}

/// The laws, applied to a list that begins with a room, whatever follows.
///
/// The proof applies the laws to this list. A law with one more premise, which it does not meet, is refused here.
pub fn months_from_a_room()
    ensures whole { (later : List (Cell × Held)) →
        cells_in (months_of (on_29 ∷ later)) ≡ on_29 ∷ later }
    ensures apart { (later : List (Cell × Held)) → IsTrue (have_nights later) →
        IsTrue (are_in_order (on_29 ∷ later)) → IsTrue (are_apart (months_of (on_29 ∷ later))) }
    ensures asked { (f : CellFilter) → (later : List (Cell × Held)) → IsTrue (have_nights later)
        → IsTrue (are_in_order (on_29 ∷ later)) →
        IsTrue (are_apart (asked_months f (on_29 ∷ later))) }
{
    each_month_is_one_run();
}
