//! Where the items of a journey are in a store: after the event that began the journey.
ghost use Rattle.std.specs.Prelude.{◌≡◌, ◌<◌, ◌^◌};

use crate::reads::LARGEST;

/// Where the items of a journey are in a store.
#[derive(Drop)]
pub(crate) struct Sought {
    /// The number of the journey in the store; 0, which no journey has, if there is none.
    pub journey: u64,
    /// The number of the event that began the journey: its items have greater numbers.
    pub after: u64,
    /// The number of steps in its plan; 0 if there is no journey.
    pub steps: u64,
}

impl Sought {
    /// The search for a journey that does not exist, which finds nothing.
    pub fn nowhere() -> Sought
        ensures journey { result.journey ≡ 0 }
        ensures small { result.after < 2 ^ 63 }
    {
        Sought {
            journey: 0,
            after: LARGEST,
            steps: 0,
        }
    }
}
