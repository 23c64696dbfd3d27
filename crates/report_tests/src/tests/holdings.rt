//! The report of the holders of cells, night by night: texts with values from outside.
use super::{is_told, with_room};
use allotment::Cell;
use commands::Agent;
use reports::{Holding, holdings_text};
use saga_core::{Format, JourneyState, Listed};
use std::process::Abort;

/// A cell, the journey's number, its agent and state, and the places.
type Row<'a> = (&'a str, u64, &'a str, JourneyState, u64);

#[rattlefmt::skip]
const HOLDINGS: [Row; 4] = [
    ("F/AL/A1/2024-06-10",             3,               "ann",              JourneyState::Run,    2),
    ("R/BAYSUI/STD/2024-06-10",        41,              "bob",              JourneyState::Ended,  50),
    ("R/BAYSUI/STD/2024-06-10",        999_999_999_999, "abcdefghijklmnop", JourneyState::Back,   7),
    ("C/ABCDEFGH/12345678/2099-12-31", 1,               "desk",             JourneyState::Undone, 1),
];

const TEXT: &str =
    "night      kind     supplier product       journey agent            state  places
2024-06-10 flight   AL       A1                  3 ann              run         2
2024-06-10 room     BAYSUI   STD                41 bob              ended      50
2024-06-10 room     BAYSUI   STD      999999999999 abcdefghijklmnop back        7
2099-12-31 cover    ABCDEFGH 12345678            1 desk             undone      1
holders 4
";

const NONE: &str =
    "night      kind     supplier product       journey agent            state  places
holders 0
";

const OBJECTS: &str =
    r#"{"agent":"ann","journey":3,"kind":"flight","night":"2024-06-10","places":2,"product":"A1","state":"run","supplier":"AL"}
{"agent":"bob","journey":41,"kind":"room","night":"2024-06-10","places":50,"product":"STD","state":"ended","supplier":"BAYSUI"}
{"agent":"abcdefghijklmnop","journey":999999999999,"kind":"room","night":"2024-06-10","places":7,"product":"STD","state":"back","supplier":"BAYSUI"}
{"agent":"desk","journey":1,"kind":"cover","night":"2099-12-31","places":1,"product":"12345678","state":"undone","supplier":"ABCDEFGH"}
"#;

const RECORDS: &str = "night,kind,supplier,product,journey,agent,state,places\r
2024-06-10,flight,AL,A1,3,ann,run,2\r
2024-06-10,room,BAYSUI,STD,41,bob,ended,50\r
2024-06-10,room,BAYSUI,STD,999999999999,abcdefghijklmnop,back,7\r
2099-12-31,cover,ABCDEFGH,12345678,1,desk,undone,1\r
";

// the format, what it writes of the four holders, and of none
#[rattlefmt::skip]
const REPORTS: [(Format, &str, &str); 3] = [
    (Format::Text, TEXT, NONE),
    (Format::Json, OBJECTS, ""),
    (Format::Csv, RECORDS, "night,kind,supplier,product,journey,agent,state,places\r\n"),
];

/// The holder of a row.
fn holding(rt: &impl Abort, row: Row) -> Holding {
    let (cell, journey, agent, state, places) = row;
    Holding {
        cell: Cell::parse(cell).expect(rt, "cell"),
        journey,
        agent: Agent::parse(agent).expect(rt, "agent"),
        state,
        places,
    }
}

#[test]
fn holders_of_cells_are_shown_in_each_format(rt: HostRuntime) {
    let alloc = rt.alloc();
    let rows = [
        holding(&rt, HOLDINGS[0]),
        holding(&rt, HOLDINGS[1]),
        holding(&rt, HOLDINGS[2]),
        holding(&rt, HOLDINGS[3]),
    ];
    for &(format, whole, empty) in &REPORTS {
        let mut out = with_room(&rt, alloc);
        let answer = holdings_text(alloc, format, &mut Listed::new(&rows), &mut out);
        is_told(&rt, "four", answer, Ok(4), &out, whole.as_bytes());
        let mut out = with_room(&rt, alloc);
        let answer = holdings_text(alloc, format, &mut Listed::new(&rows[..0]), &mut out);
        is_told(&rt, "none", answer, Ok(0), &out, empty.as_bytes());
    }
}
