//! A holder of a cell.

/// A step of a journey that holds places of a cell. Journeys, steps and options count from 1.
#[derive(Clone, Copy, Debug, PartialEq, Eq)]
pub struct Holder {
    /// The number of the journey.
    pub journey: u64,
    /// The number of the step in the journey's plan.
    pub step: u64,
    /// The number of the option that was taken.
    pub option: u64,
    /// How many places of the cell the step holds.
    pub places: u64,
}
