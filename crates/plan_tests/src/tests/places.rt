//! Places: what stays held, what is taken and given back, and which wants fit.
use crate::tests::texts::holds;
use allotment::{BelowHeld, Held, Kind, Night, Want, fits, give, set, take};
use std::alloc::{AllocError, Global};

// places allotted and free; how many are asked for; what is free then, or that it is below what is held
#[rattlefmt::skip]
const SETS: [(&str, u32, u32, u32, Option<u32>); 9] = [
    ("a new cell",            0,      0,  10,      Some(10)),
    ("more places",           10,     4,  12,      Some(6)),
    ("fewer places",          10,     4,  7,       Some(1)),
    ("as many as are held",   10,     4,  6,       Some(0)),
    ("one fewer than held",   10,     4,  5,       None),
    ("none at all",           10,     10, 0,       Some(0)),
    ("none, and one is held", 10,     9,  0,       None),
    ("the most there may be", 100000, 0,  100000,  Some(0)),
    ("one fewer than those",  100000, 0,  99999,   None),
];

#[test]
fn places_that_are_held_stay_held(rt: HostRuntime) {
    for &(case, allot, free, places, expected) in &SETS {
        holds(&rt, case, free <= allot && allot <= 100_000);
        holds(&rt, case, places <= 100_000);
        match set(Held { allot, free }, places) {
            Ok(held) => {
                holds(&rt, case, held.allot == places);
                holds(&rt, case, Some(held.free) == expected);
            }
            Err(BelowHeld) => holds(&rt, case, expected.is_none()),
        }
    }
}

#[test]
fn what_is_taken_can_be_given_back(rt: HostRuntime) {
    let held = Held { allot: 10, free: 3 };
    let none_free = Held { allot: 10, free: 0 };
    let all_free = Held {
        allot: 10,
        free: 10,
    };
    holds(&rt, "seven are held", held.held() == 7);
    holds(&rt, "the last three", take(held, 3) == none_free);
    holds(&rt, "none is taken", take(held, 0) == held);
    holds(&rt, "two come back", give(take(held, 2), 2) == held);
    holds(&rt, "all come back", give(held, 7) == all_free);
}

// the free places of two nights, as many as the want has, from the first on; whether it fits
#[rattlefmt::skip]
const FITS: [(&str, &[(u32, u32)], bool); 7] = [
    ("just enough",             &[(22066, 2), (22067, 2)],               true),
    ("more, in another order",  &[(22067, 9), (22066, 3)],               true),
    ("with other nights",       &[(22065, 0), (22066, 2), (22067, 2), (22068, 0)], true),
    ("the first night is full", &[(22066, 1), (22067, 2)],               false),
    ("the last night is full",  &[(22066, 2), (22067, 1)],               false),
    ("the last night is none",  &[(22066, 2)],                           false),
    ("there is no night",       &[],                                     false),
];

// the nights of these days, each with ten places
fn rows_of(alloc: Global, free_places: &[(u32, u32)]) -> Result<Vec<(Night, Held)>, AllocError> {
    let mut rows = Vec::new(alloc);
    for &(day, free) in free_places {
        if let Some(night) = Night::from_day(day)
            && free <= 10
        {
            rows.push((night, Held { allot: 10, free }))?;
        }
    }
    Ok(rows)
}

#[test]
fn a_want_fits_where_each_night_has_room(rt: HostRuntime) {
    let want = Want::new(Kind::Room, "INN", "DBL", "2030-06-01", 2, 2).expect(&rt, "a want");
    for &(case, free_places, expected) in &FITS {
        let rows = rows_of(rt.alloc(), free_places).expect(&rt, case);
        holds(&rt, case, rows.len() == free_places.len());
        holds(&rt, case, fits(&rows, &want) == expected);
    }
}
