//! What no clause says: texts with values from outside, and what is written before a source or a writer fails.
mod calendars;
mod fakes;
mod holders;
mod holdings;
mod months;
mod whys;

use allotment::{Cell, Held};
use commands::{Agent, Cause, Cursor, Fault, Item, Phase};
use failing_streams::Sink;
use fakes::Failing;
use plan::{Marks, Plan, PlanFault};
use reports::{ReportFault, history_text, stock_text, unfinished_text};
use saga_core::{Brief, Format, Listed, Record};
use std::alloc::{AllocError, Global};
use std::process::Abort;

/// The result of a report: how many rows it shows, or a fault.
type Answer = Result<u64, ReportFault>;

/// Stops the test if a report returned another result, or wrote another text.
fn is_told(rt: &impl Abort, case: &str, answer: Answer, expected: Answer, out: &[u8], text: &[u8]) {
    assert!(rt; answer == expected && out == text, "{case}: {answer:?}");
}

/// More bytes than any test writes.
const ROOM: usize = 1000;

/// A writer with enough capacity, so that no write is out of memory.
fn with_room(rt: &impl Abort, alloc: Global) -> Vec<u8> {
    Vec::with_capacity(alloc, ROOM).expect(rt, "memory")
}

const HEADING: &str = "kind     supplier product  night       allot   held   free\n";

const FIRST_LINES: &str = "kind     supplier product  night       allot   held   free
flight   AL       A1       2030-06-01     10      1      9
";

const NO_STOCK: &str = "kind     supplier product  night       allot   held   free
cells 0
";

const STOCK: &str = "kind     supplier product  night       allot   held   free
flight   AL       A1       2030-06-01     10      1      9
room     INN      DBL      2000-01-01      1      1      0
transfer ABCDEFGH 12345678 2099-12-31 100000      0 100000
cover    CO       P        2030-06-30      0      0      0
cells 4
";

const STOCK_OBJECTS: &str =
    r#"{"allot":10,"free":9,"held":1,"kind":"flight","night":"2030-06-01","product":"A1","supplier":"AL"}
{"allot":1,"free":0,"held":1,"kind":"room","night":"2000-01-01","product":"DBL","supplier":"INN"}
{"allot":100000,"free":100000,"held":0,"kind":"transfer","night":"2099-12-31","product":"12345678","supplier":"ABCDEFGH"}
{"allot":0,"free":0,"held":0,"kind":"cover","night":"2030-06-30","product":"P","supplier":"CO"}
"#;

const STOCK_RECORDS: &str = "kind,supplier,product,night,allot,held,free\r
flight,AL,A1,2030-06-01,10,1,9\r
room,INN,DBL,2000-01-01,1,1,0\r
transfer,ABCDEFGH,12345678,2099-12-31,100000,0,100000\r
cover,CO,P,2030-06-30,0,0,0\r
";

/// The cell of this text.
fn cell(rt: &impl Abort, text: &str) -> Cell {
    match Cell::parse(text) {
        Some(cell) => cell,
        None => panic!(rt; "{text}"),
    }
}

/// The four cells of that text.
fn four_cells(rt: &impl Abort) -> [(Cell, Held); 4] {
    let flight = cell(rt, "F/AL/A1/2030-06-01");
    let room = cell(rt, "R/INN/DBL/2000-01-01");
    let transfer = cell(rt, "T/ABCDEFGH/12345678/2099-12-31");
    let cover = cell(rt, "C/CO/P/2030-06-30");
    let (allot, free) = (100_000, 100_000);
    [
        (flight, Held { allot: 10, free: 9 }),
        (room, Held { allot: 1, free: 0 }),
        (transfer, Held { allot, free }),
        (cover, Held { allot: 0, free: 0 }),
    ]
}

/// Stops the test if a writer that takes so many bytes at a time, and no more than its capacity, gets another report of
/// these rows in this format.
fn is_written(
    rt: &impl Abort,
    alloc: Global,
    format: Format,
    rows: &[(Cell, Held)],
    step: usize,
    room: usize,
    expected: Answer,
    text: &[u8],
) -> Result<(), AllocError> {
    let mut sink = Sink::new(alloc, step, room)?;
    let answer = stock_text(alloc, format, &mut Listed::new(rows), &mut sink);
    assert!(rt;
        answer == expected,
        "{step} at a time, {room} in all: {answer:?}"
    );
    assert!(rt; sink.taken() == text, "{step} at a time, {room} in all");
    Ok(())
}

#[test]
fn stock_is_shown_by_cell(rt: HostRuntime) -> Result<(), AllocError> {
    let rows = four_cells(&rt);
    let whole = STOCK.as_bytes();
    is_written(
        &rt,
        rt.alloc(),
        Format::Text,
        &rows,
        ROOM,
        ROOM,
        Ok(4),
        whole,
    )?;
    is_written(&rt, rt.alloc(), Format::Text, &rows, 1, ROOM, Ok(4), whole)?;
    is_written(&rt, rt.alloc(), Format::Text, &rows, 7, ROOM, Ok(4), whole)
}

#[test]
fn stock_is_shown_as_objects_and_as_records(rt: HostRuntime) -> Result<(), AllocError> {
    let rows = four_cells(&rt);
    for (format, text) in [(Format::Json, STOCK_OBJECTS), (Format::Csv, STOCK_RECORDS)] {
        let whole = text.as_bytes();
        is_written(&rt, rt.alloc(), format, &rows, ROOM, ROOM, Ok(4), whole)?;
        is_written(&rt, rt.alloc(), format, &rows, 1, ROOM, Ok(4), whole)?;
    }
    Ok(())
}

// the format, and the stock and the unfinished journeys of an empty ledger
#[rattlefmt::skip]
const NOTHING: [(Format, &str, &str); 2] = [
    (Format::Json, "", ""),
    (Format::Csv, "kind,supplier,product,night,allot,held,free\r\n", "journey,agent,state,pos,target\r\n"),
];

#[test]
fn a_report_of_no_row_is_empty_or_a_heading(rt: HostRuntime) {
    let alloc = rt.alloc();
    let cells: [(Cell, Held); 0] = [];
    let briefs: [Brief; 0] = [];
    for (format, no_cell, no_journey) in NOTHING {
        let mut out = with_room(&rt, alloc);
        let answer = stock_text(alloc, format, &mut Listed::new(&cells), &mut out);
        is_told(&rt, "stock", answer, Ok(0), &out, no_cell.as_bytes());
        let mut out = with_room(&rt, alloc);
        let answer = unfinished_text(alloc, format, &mut Listed::new(&briefs), &mut out);
        is_told(&rt, "journeys", answer, Ok(0), &out, no_journey.as_bytes());
    }
}

#[test]
fn a_report_of_no_row_says_so(rt: HostRuntime) {
    let alloc = rt.alloc();
    let mut stock = with_room(&rt, alloc);
    let cells: [(Cell, Held); 0] = [];
    let answer = stock_text(alloc, Format::Text, &mut Listed::new(&cells), &mut stock);
    is_told(&rt, "stock", answer, Ok(0), &stock, NO_STOCK.as_bytes());
    assert!(rt; stock.len() == 67);

    let mut unfinished = with_room(&rt, alloc);
    let briefs: [Brief; 0] = [];
    let answer = unfinished_text(
        alloc,
        Format::Text,
        &mut Listed::new(&briefs),
        &mut unfinished,
    );
    is_told(
        &rt,
        "unfinished",
        answer,
        Ok(0),
        &unfinished,
        b"unfinished 0\n",
    );
}

/// A journey at a position, in a phase.
fn at(pos: usize, phase: Phase) -> Cursor {
    Cursor {
        pos,
        phase,
        used: 0,
    }
}

// the journeys, and their report
#[rattlefmt::skip]
const JOURNEYS: [(u64, &str, usize, Phase, &str); 4] = [
    (2, "desk", 1, Phase::Run,
        "           2 desk             run 1\nunfinished 1\n"),
    (999_999_999_999, "abcdefghij012345", 5, Phase::Back(2),
        "999999999999 abcdefghij012345 back 5 to 2\nunfinished 1\n"),
    (1, "a", 0, Phase::Run,
        "           1 a                run 0\nunfinished 1\n"),
    (120, "ann", 24, Phase::Back(0),
        "         120 ann              back 24 to 0\nunfinished 1\n"),
];

/// The agent of this name.
fn agent(rt: &impl Abort, name: &str) -> Agent {
    match Agent::parse(name) {
        Some(agent) => agent,
        None => panic!(rt; "{name}"),
    }
}

#[test]
fn an_unfinished_journey_has_a_line(rt: HostRuntime) {
    let alloc = rt.alloc();
    for &(id, name, pos, phase, expected) in &JOURNEYS {
        let agent = agent(&rt, name);
        let cursor = at(pos, phase);
        let rows = [Brief { id, agent, cursor }];
        let mut out = with_room(&rt, alloc);
        let answer = unfinished_text(alloc, Format::Text, &mut Listed::new(&rows), &mut out);
        is_told(&rt, name, answer, Ok(1), &out, expected.as_bytes());
    }
}

// the journeys, and the line of each as an object and as a record
#[rattlefmt::skip]
const JOURNEY_LINES: [(u64, &str, usize, Phase, &str, &str); 3] = [
    (2, "desk", 1, Phase::Run,
        r#"{"agent":"desk","journey":2,"pos":1,"state":"run"}"#, "2,desk,run,1,"),
    (999_999_999_999, "abcdefghij012345", 5, Phase::Back(2),
        r#"{"agent":"abcdefghij012345","journey":999999999999,"pos":5,"state":"back","target":2}"#,
        "999999999999,abcdefghij012345,back,5,2"),
    (120, "ann", 24, Phase::Back(0),
        r#"{"agent":"ann","journey":120,"pos":24,"state":"back","target":0}"#, "120,ann,back,24,0"),
];

#[test]
fn an_unfinished_journey_is_an_object_or_a_record(rt: HostRuntime) -> Result<(), AllocError> {
    let alloc = rt.alloc();
    for &(id, name, pos, phase, object, record) in &JOURNEY_LINES {
        let agent = agent(&rt, name);
        let cursor = at(pos, phase);
        let rows = [Brief { id, agent, cursor }];
        let objects = format!(in alloc; "{object}\n")?;
        let mut out = with_room(&rt, alloc);
        let answer = unfinished_text(alloc, Format::Json, &mut Listed::new(&rows), &mut out);
        is_told(&rt, name, answer, Ok(1), &out, objects.as_bytes());
        let records = format!(in alloc; "journey,agent,state,pos,target\r\n{record}\r\n")?;
        let mut out = with_room(&rt, alloc);
        let answer = unfinished_text(alloc, Format::Csv, &mut Listed::new(&rows), &mut out);
        is_told(&rt, name, answer, Ok(1), &out, records.as_bytes());
    }
    Ok(())
}

const STOPPED: &str = "journey 1 agent desk
plan F/AL/A1/2030-06-01/1/1!0
items B0s
state undone 0
";

const REFUSED: &str = "journey 2 agent desk
plan R/INN/X/2030-06-01/1/1;T/BUS/Y/2030-06-01/1/1!0
items T1.1 B0s C1.1
state undone 0
";

const NEW: &str = "journey 3 agent desk
plan F/AL/A1/2030-06-01/1/1!0
items
state run 0
";

const STOP: Item = Item::Turn {
    target: 0,
    cause: Cause::Stop,
};

const DONE: Item = Item::Transaction { step: 1, option: 1 };

const TAKEN_BACK: Item = Item::Compensation { step: 1, option: 1 };

const ONE_STEP: &str = "F/AL/A1/2030-06-01/1/1!0";

const TWO_STEPS: &str = "R/INN/X/2030-06-01/1/1;T/BUS/Y/2030-06-01/1/1!0";

// the journeys: their plans, their phases, their items, how many these are, and the report
#[rattlefmt::skip]
const HISTORIES: [(u64, &str, Phase, &[Item], u64, &str); 3] = [
    (1, ONE_STEP,  Phase::Undone, &[STOP],                   1, STOPPED),
    (2, TWO_STEPS, Phase::Undone, &[DONE, STOP, TAKEN_BACK], 3, REFUSED),
    (3, ONE_STEP,  Phase::Run,    &[],                       0, NEW),
];

const REFUSED_OBJECTS: &str =
    r#"{"agent":"desk","journey":2,"plan":"R/INN/X/2030-06-01/1/1;T/BUS/Y/2030-06-01/1/1!0"}
{"item":"T1.1","journey":2}
{"item":"B0s","journey":2}
{"item":"C1.1","journey":2}
{"journey":2,"pos":0,"state":"undone"}
"#;

const REFUSED_RECORDS: &str = "journey,item\r\n2,T1.1\r\n2,B0s\r\n2,C1.1\r\n";

const NEW_OBJECTS: &str = r#"{"agent":"desk","journey":3,"plan":"F/AL/A1/2030-06-01/1/1!0"}
{"journey":3,"pos":0,"state":"run"}
"#;

const BACK_OBJECTS: &str = r#"{"agent":"desk","journey":4,"plan":"F/AL/A1/2030-06-01/1/1!0"}
{"item":"T1.1","journey":4}
{"journey":4,"pos":0,"state":"back","target":0}
"#;

// the histories in a format: the journey, its plan, its phase, its items, how many these are, and the report
#[rattlefmt::skip]
const HISTORY_LINES: [(Format, u64, &str, Phase, &[Item], u64, &str); 5] = [
    (Format::Json, 2, TWO_STEPS, Phase::Undone,  &[DONE, STOP, TAKEN_BACK], 3, REFUSED_OBJECTS),
    (Format::Json, 3, ONE_STEP,  Phase::Run,     &[],                       0, NEW_OBJECTS),
    (Format::Json, 4, ONE_STEP,  Phase::Back(0), &[DONE],                   1, BACK_OBJECTS),
    (Format::Csv,  2, TWO_STEPS, Phase::Undone,  &[DONE, STOP, TAKEN_BACK], 3, REFUSED_RECORDS),
    (Format::Csv,  3, ONE_STEP,  Phase::Run,     &[],                       0, "journey,item\r\n"),
];

/// A journey of the house without save-points, of this plan, at 0.
fn journey(alloc: Global, plan: &str, phase: Phase) -> Result<Record, PlanFault> {
    Ok(Record {
        agent: Agent::house(),
        plan: Plan::from_line(alloc, plan)?,
        cursor: at(0, phase),
        marks: Marks::none(),
    })
}

#[test]
fn a_history_tells_the_items_in_one_line(rt: HostRuntime) -> Result<(), PlanFault> {
    let alloc = rt.alloc();
    for &(id, plan, phase, items, count, expected) in &HISTORIES {
        let record = journey(alloc, plan, phase)?;
        let mut out = with_room(&rt, alloc);
        let answer = history_text(
            alloc,
            Format::Text,
            id,
            &record,
            &mut Listed::new(items),
            &mut out,
        );
        is_told(&rt, expected, answer, Ok(count), &out, expected.as_bytes());
    }
    Ok(())
}

#[test]
fn a_history_has_a_line_for_each_item(rt: HostRuntime) -> Result<(), PlanFault> {
    let alloc = rt.alloc();
    for &(format, id, plan, phase, items, count, expected) in &HISTORY_LINES {
        let record = journey(alloc, plan, phase)?;
        let mut out = with_room(&rt, alloc);
        let answer = history_text(
            alloc,
            format,
            id,
            &record,
            &mut Listed::new(items),
            &mut out,
        );
        is_told(&rt, expected, answer, Ok(count), &out, expected.as_bytes());
    }
    Ok(())
}

// the fault of a source, and that of the report
const FAULTS: [(Fault, ReportFault); 2] = [
    (Fault::Store, ReportFault::Store),
    (Fault::Memory, ReportFault::Memory),
];

/// Stops the test if a source that has these rows, and then this fault, gives another report.
fn is_cut(
    rt: &impl Abort,
    alloc: Global,
    rows: &[(Cell, Held)],
    fault: Fault,
    told: ReportFault,
    text: &str,
) {
    let mut out = with_room(rt, alloc);
    let answer = stock_text(
        alloc,
        Format::Text,
        &mut Failing::new(rows, fault),
        &mut out,
    );
    is_told(rt, text, answer, Err(told), &out, text.as_bytes());
}

#[test]
fn a_source_that_fails_ends_the_report_between_rows(rt: HostRuntime) {
    let rows = four_cells(&rt);
    for &(fault, told) in &FAULTS {
        is_cut(&rt, rt.alloc(), &rows[..1], fault, told, FIRST_LINES);
        is_cut(&rt, rt.alloc(), &rows[..0], fault, told, HEADING);
    }
}

#[test]
fn a_writer_that_fails_has_a_prefix(rt: HostRuntime) -> Result<(), AllocError> {
    let rows = four_cells(&rt);
    let formats = [
        (Format::Text, STOCK),
        (Format::Json, STOCK_OBJECTS),
        (Format::Csv, STOCK_RECORDS),
    ];
    for (format, text) in formats {
        let whole = text.as_bytes();
        for room in 0..whole.len() {
            let told = Err(ReportFault::Write);
            is_written(
                &rt,
                rt.alloc(),
                format,
                &rows,
                3,
                room,
                told,
                &whole[..room],
            )?;
        }
    }
    Ok(())
}
