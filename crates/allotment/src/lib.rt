//! What suppliers allot: cells, wants, and the places of one cell.
//!
//! A *cell* is one night of a supplier's product; a *want* is so many places of a product for some consecutive nights.
//! It promises that every value keeps its limits; that a text is read exactly if it is the one text of its value; that
//! `Want::new` reports the first fault in the order of `Bad`; that `Want::cells` gives a cell for each night of the
//! want; and that `fits`, `take`, `give` and `set` are the sums on one cell.
//!
//! Words: *allotted* is what the supplier gave, *held* what journeys have taken, *free* the rest.
#![tactic(auto)]

mod cells;
mod codes;
mod laws;
mod limits;
mod nights;
mod places;
mod sums;
mod wants;

pub use cells::{Cell, Row};
pub use codes::{Code, Kind, Short};
pub use laws::{texts_of_a_room, values_have_one_text};
pub use limits::MOST_PLACES;
pub use nights::{Night, NightDate};
pub use places::Held;
pub use sums::{BelowHeld, fits, give, set, take};
pub use wants::{Bad, Want, WantCells};
