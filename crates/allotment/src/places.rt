//! Places of one cell: how many the supplier allotted, and how many of them are free.
ghost use Rattle.std.specs.Prelude.{◌≤◌};
ghost use Rattle.allotment.specs.Limits.{most_places};

/// The places of one cell. A cell that was never loaded has no `Held`.
#[derive(Clone, Copy, Debug, PartialEq, Eq)]
pub struct Held {
    /// Places that the supplier allotted, 0 to 100,000.
    pub allot: u32,
    /// Places that no journey holds.
    pub free: u32,
    ghost within: { free ≤ allot },
    ghost bounded: { allot ≤ most_places },
}

impl Held {
    ghost use Rattle.std.specs.Prelude.{◌≡◌};
    ghost use Rattle.allotment.specs.Places.{held_of};

    /// Places that journeys hold.
    pub fn held(&self) -> u32
        ensures held { result ≡ held_of self.now }
        ensures within { self.now.free ≤ self.now.allot }
        ensures bounded { self.now.allot ≤ most_places }
    {
        self.allot - self.free
    }
}
