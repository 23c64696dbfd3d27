//! The desk of the old files: its cells, and the journeys of a round. A file has as many rounds as a test needs. Each
//! journey is given twice: as its rows of schema 1, and as reports must show it.

/// A cell: its text; its kind, supplier, product and night; its allotment, and how many places a round holds.
pub type CellRow = (&'static str, i64, &'static str, &'static str, i64, i64, i64);

/// An option: step, option, marked, taken; kind, supplier, product, first night, nights, places.
pub type OptionRow = (
    i64,
    i64,
    i64,
    i64,
    i64,
    &'static str,
    &'static str,
    i64,
    i64,
    i64,
);

/// An item: 0 transaction or 1 compensation, with step and option; 2 turn, with target and 0 stop, 1 refused, 2 asked.
pub type ItemRow = (i64, i64, i64);

/// A journey.
#[derive(Clone, Copy)]
pub struct OldJourney {
    pub agent: &'static str,
    pub plan: &'static str,
    /// Steps, tries, position, phase (0 run, 1 back, 2 ended, 3 undone), target, refusals.
    pub numbers: [i64; 6],
    pub options: &'static [OptionRow],
    pub items: &'static [ItemRow],
    /// The items as text.
    pub told: &'static str,
    pub state: &'static str,
}

// by kind, supplier, product and night; the rooms R/INN/B have no allotment
#[rattlefmt::skip]
static CELLS: [CellRow; 17] = [
    ("F/AL/A1/2030-06-01",   0, "AL",  "A1",  22066, 100_000, 5),
    ("F/AL/A2/2030-06-01",   0, "AL",  "A2",  22066, 90_000,  2),
    ("F/AL/A3/2030-06-01",   0, "AL",  "A3",  22066, 80_000,  1),
    ("F/AL/A4/2030-06-01",   0, "AL",  "A4",  22066, 70_000,  1),
    ("F/AL/A5/2030-06-01",   0, "AL",  "A5",  22066, 60_000,  0),
    ("F/AL/A6/2030-06-01",   0, "AL",  "A6",  22066, 50_000,  0),
    ("R/INN/A/2030-06-01",   1, "INN", "A",   22066, 0,       0),
    ("R/INN/C/2030-06-01",   1, "INN", "C",   22066, 40_000,  1),
    ("R/INN/DBL/2030-06-01", 1, "INN", "DBL", 22066, 30_000,  1),
    ("R/INN/DBL/2030-06-02", 1, "INN", "DBL", 22067, 30_000,  1),
    ("R/INN/DBL/2030-06-03", 1, "INN", "DBL", 22068, 30_000,  1),
    ("T/BUS/X/2030-06-01",   2, "BUS", "X",   22066, 20_000,  0),
    ("C/CO/P/2030-06-01",    3, "CO",  "P",   22066, 10_000,  1),
    ("C/CO/P/2030-06-02",    3, "CO",  "P",   22067, 10_000,  1),
    ("C/CO/P/2030-06-03",    3, "CO",  "P",   22068, 10_000,  1),
    ("C/CO/P/2030-06-04",    3, "CO",  "P",   22069, 10_000,  1),
    ("C/CO/P/2030-06-05",    3, "CO",  "P",   22070, 10_000,  1),
];

/// How many journeys a round has.
pub const IN_A_ROUND: u64 = 8;

/// The most items that a journey has.
pub const MOST_ITEMS: usize = 8;

#[rattlefmt::skip]
static JOURNEYS: [OldJourney; 8] = [
    // finished
    OldJourney {
        agent: "desk", plan: "F/AL/A1/2030-06-01/1/2;R/INN/DBL/2030-06-01/3/1!0", numbers: [2, 0, 2, 2, 0, 0],
        options: &[(1, 1, 0, 1, 0, "AL", "A1", 22066, 1, 2), (2, 1, 0, 1, 1, "INN", "DBL", 22066, 3, 1)],
        items: &[(0, 1, 1), (0, 2, 1)], told: "T1.1 T2.1", state: "ended 2",
    },
    // back at its start, after a turn
    OldJourney {
        agent: "ann", plan: "F/AL/A1/2030-06-01/1/1;T/BUS/X/2030-06-01/1/4!0", numbers: [2, 0, 0, 3, 0, 0],
        options: &[(1, 1, 0, 0, 0, "AL", "A1", 22066, 1, 1), (2, 1, 0, 0, 2, "BUS", "X", 22066, 1, 4)],
        items: &[(0, 1, 1), (2, 0, 2), (1, 1, 1)], told: "T1.1 B0a C1.1", state: "undone 0",
    },
    // going back to a save-point
    OldJourney {
        agent: "ann",
        plan: "F/AL/A1/2030-06-01/1/1*;F/AL/A2/2030-06-01/1/1;T/BUS/X/2030-06-01/1/2;R/INN/DBL/2030-06-02/1/1!0",
        numbers: [4, 0, 2, 1, 1, 0],
        options: &[(1, 1, 1, 1, 0, "AL", "A1", 22066, 1, 1), (2, 1, 0, 1, 0, "AL", "A2", 22066, 1, 1),
            (3, 1, 0, 0, 2, "BUS", "X", 22066, 1, 2), (4, 1, 0, 0, 1, "INN", "DBL", 22067, 1, 1)],
        items: &[(0, 1, 1), (0, 2, 1), (0, 3, 1), (2, 1, 2), (1, 3, 1)],
        told: "T1.1 T2.1 T3.1 B1a C3.1", state: "back 2 to 1",
    },
    // two options were refused, and the third one taken
    OldJourney {
        agent: "bob",
        plan: "F/AL/A1/2030-06-01/1/1*;R/INN/A/2030-06-01/1/1|R/INN/B/2030-06-01/1/1|R/INN/C/2030-06-01/1/1!2",
        numbers: [2, 2, 2, 2, 0, 2],
        options: &[(1, 1, 1, 1, 0, "AL", "A1", 22066, 1, 1), (2, 1, 0, 0, 1, "INN", "A", 22066, 1, 1),
            (2, 2, 0, 0, 1, "INN", "B", 22066, 1, 1), (2, 3, 0, 1, 1, "INN", "C", 22066, 1, 1)],
        items: &[(0, 1, 1), (2, 1, 1), (2, 1, 1), (0, 2, 3)], told: "T1.1 B1r B1r T2.3", state: "ended 2",
    },
    // running on from a save-point, to which a stop turned it back
    OldJourney {
        agent: "desk", plan: "C/CO/P/2030-06-01/5/1*;F/AL/A2/2030-06-01/1/3;T/BUS/X/2030-06-01/1/1!1",
        numbers: [3, 1, 1, 0, 0, 0],
        options: &[(1, 1, 1, 1, 3, "CO", "P", 22066, 5, 1), (2, 1, 0, 0, 0, "AL", "A2", 22066, 1, 3),
            (3, 1, 0, 0, 2, "BUS", "X", 22066, 1, 1)],
        items: &[(0, 1, 1), (0, 2, 1), (2, 1, 0), (1, 2, 1)], told: "T1.1 T2.1 B1s C2.1", state: "run 1",
    },
    // refused at its first step
    OldJourney {
        agent: "bob", plan: "R/INN/A/2030-06-01/2/1!0", numbers: [1, 0, 0, 3, 0, 1],
        options: &[(1, 1, 0, 0, 1, "INN", "A", 22066, 2, 1)],
        items: &[(2, 0, 1)], told: "B0r", state: "undone 0",
    },
    // at its start
    OldJourney {
        agent: "ann", plan: "T/BUS/X/2030-06-01/1/50!9", numbers: [1, 9, 0, 0, 0, 0],
        options: &[(1, 1, 0, 0, 2, "BUS", "X", 22066, 1, 50)],
        items: &[], told: "", state: "run 0",
    },
    // turned back twice, and on its way
    OldJourney {
        agent: "bob",
        plan: "F/AL/A1/2030-06-01/1/1;F/AL/A2/2030-06-01/1/1*;F/AL/A3/2030-06-01/1/1;F/AL/A4/2030-06-01/1/1*;F/AL/A5/2030-06-01/1/1;F/AL/A6/2030-06-01/1/1!0",
        numbers: [6, 0, 4, 1, 2, 0],
        options: &[(1, 1, 0, 1, 0, "AL", "A1", 22066, 1, 1), (2, 1, 1, 1, 0, "AL", "A2", 22066, 1, 1),
            (3, 1, 0, 1, 0, "AL", "A3", 22066, 1, 1), (4, 1, 1, 1, 0, "AL", "A4", 22066, 1, 1),
            (5, 1, 0, 0, 0, "AL", "A5", 22066, 1, 1), (6, 1, 0, 0, 0, "AL", "A6", 22066, 1, 1)],
        items: &[(0, 1, 1), (0, 2, 1), (0, 3, 1), (0, 4, 1), (0, 5, 1), (2, 4, 2), (2, 2, 2), (1, 5, 1)],
        told: "T1.1 T2.1 T3.1 T4.1 T5.1 B4a B2a C5.1", state: "back 4 to 2",
    },
];

/// The cells, in the order of reports.
pub fn cells() -> &'static [CellRow] {
    &CELLS
}

/// The journeys of a round, in the order in which they begin.
pub fn journeys() -> &'static [OldJourney] {
    &JOURNEYS
}

/// Whether a journey is not finished.
pub fn is_unfinished(journey: &OldJourney) -> bool {
    journey.state.starts_with("run") || journey.state.starts_with("back")
}

/// The last item of a journey. Returns `None` if it has no item.
pub fn last_item(journey: &OldJourney) -> Option<&'static str> {
    if journey.told.is_empty() {
        return None;
    }
    journey.told.split(' ').last()
}
