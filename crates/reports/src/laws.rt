//! Laws of the holders of a cell and of those of several cells, and their use on an example.
//!
//! A law is the contract of a function that does nothing: a caller of it may use the law.
ghost use Rattle.std.specs.Prelude.{List};
ghost use Rattle.reports.specs.HolderExamples.{two_stays};
ghost use Rattle.reports.specs.Holders.{HoldAllThatIsHeld};
ghost use Rattle.reports.specs.Holdings.{HoldAllOfCells};
ghost use Rattle.ledger.specs.Ledger.{Event};

/// In each ledger the places of the holders of a cell sum to what is held of it.
pub fn places_of_holders()
    ensures held { (l : List Event) → HoldAllThatIsHeld l }
{}

/// In each ledger the places of the holders of cells, night by night, sum to what is held of these cells.
pub fn places_of_cells()
    ensures held { (l : List Event) → HoldAllOfCells l }
{}

/// The first law, applied to a room whose first night two steps of a journey hold.
///
/// The proof applies the law to this ledger. A law with one more premise, which it does not meet, is refused here.
pub fn places_of_two_stays()
    ensures held { HoldAllThatIsHeld two_stays.ledger }
{
    places_of_holders();
}

/// The second law, applied so to the nights of that room.
pub fn places_of_two_nights()
    ensures held { HoldAllOfCells two_stays.ledger }
{
    places_of_cells();
}
