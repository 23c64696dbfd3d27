//! The limits that cells and wants keep.

/// The most bytes that a supplier's or a product's name may have.
pub(crate) const LONGEST_CODE: usize = 8;

/// The most places of a night that a want may take.
pub(crate) const MOST_COUNT: u64 = 50;

/// The most places of a cell that a supplier may allot.
pub const MOST_PLACES: u32 = 100_000;
