// Values from outside: the tables of refusals, items, states and lines in the formats.
use allotment::{Cell, Night, Row};
use commands::{
    Agent, Ask, BadBatch, Batch, Cause, CsvCause, Cursor, Item, Key, Name, Phase, Refusal, Reply,
    first_repeat, replies_have_one_line,
};
use plan::{BadPlan, PlanCause};
use std::alloc::{AllocError, Global};
use std::process::Abort;

// stops the test where this is false
fn holds(rt: &impl Abort, case: &str, is_so: bool) {
    assert!(rt; is_so, "{case}");
}

// stops the test where another text was found
fn reads(rt: &impl Abort, case: &str, found: &str, expected: &str) {
    assert_eq!(rt; found, expected, "{case}");
}

// stops the test where another text was written, or where it was out of memory
fn is_written(rt: &impl Abort, written: Result<String, AllocError>, expected: &str) {
    reads(
        rt,
        expected,
        written.expect(rt, expected).as_str(),
        expected,
    );
}

// stops the test where the line is read as another reply, or where it was out of memory
fn is_read(rt: &impl Abort, alloc: Global, case: &str, line: &str, expected: Option<Reply>) {
    let found = Reply::from_line(alloc, line).expect(rt, case);
    assert_eq!(rt; found, expected, "{case}");
}

const BAD_NIGHT: BadPlan = BadPlan {
    step: 2,
    cause: PlanCause::Night,
};

const MANY_ROWS: Refusal = Refusal::BadCsv {
    row: 2001,
    cause: CsvCause::Many,
};

// the refusal, its number, its name, its line
#[rattlefmt::skip]
const REFUSALS: [(Refusal, u8, &str, &str); 20] = [
    (Refusal::BadHead,                      1,  "BadHead",       "refused 1 BadHead"),
    (Refusal::NoAgent,                      2,  "NoAgent",       "refused 2 NoAgent"),
    (Refusal::NoKey,                        3,  "NoKey",         "refused 3 NoKey"),
    (Refusal::BadBody,                      4,  "BadBody",       "refused 4 BadBody"),
    (Refusal::BadPlan(BAD_NIGHT),           5,  "BadPlan",       "refused 5 BadPlan 2 night"),
    (MANY_ROWS,                             6,  "BadCsv",        "refused 6 BadCsv 2001 many"),
    (Refusal::UnknownPath,                  7,  "UnknownPath",   "refused 7 UnknownPath"),
    (Refusal::WrongMethod,                  8,  "WrongMethod",   "refused 8 WrongMethod"),
    (Refusal::NoJourney,                    9,  "NoJourney",     "refused 9 NoJourney"),
    (Refusal::Finished,                     10, "Finished",      "refused 10 Finished"),
    (Refusal::NoSavePoint,                  11, "NoSavePoint",   "refused 11 NoSavePoint"),
    (Refusal::BelowHeld { row: 2 },         12, "BelowHeld",     "refused 12 BelowHeld 2"),
    (Refusal::BatchDiffers,                 13, "BatchDiffers",  "refused 13 BatchDiffers"),
    (Refusal::KeyReused,                    14, "KeyReused",     "refused 14 KeyReused"),
    (Refusal::TooLarge,                     15, "TooLarge",      "refused 15 TooLarge"),
    (Refusal::Limit,                        16, "Limit",         "refused 16 Limit"),
    (Refusal::NoLength,                     19, "NoLength",      "refused 19 NoLength"),
    (Refusal::UnknownSchema { version: 1 }, 20, "UnknownSchema", "refused 20 UnknownSchema 1"),
    (Refusal::AlreadyNew,                   23, "AlreadyNew",    "refused 23 AlreadyNew"),
    (Refusal::NoSave,                       28, "NoSave",        "refused 28 NoSave"),
];

#[test]
fn a_refusal_is_known_by_number_name_and_line(rt: HostRuntime) {
    for &(refusal, number, name, line) in &REFUSALS {
        holds(&rt, line, refusal.number() == number);
        reads(&rt, line, refusal.name(), name);
        is_written(&rt, refusal.line(rt.alloc()), line);
        is_written(&rt, Reply::Refused(refusal).line(rt.alloc()), line);
        is_read(&rt, rt.alloc(), line, line, None);
    }
}

#[rattlefmt::skip]
const CSV_CAUSES: [(CsvCause, &str); 10] = [
    (CsvCause::Size,   "size"),
    (CsvCause::Header, "header"),
    (CsvCause::Many,   "many"),
    (CsvCause::Shape,  "shape"),
    (CsvCause::Kind,   "kind"),
    (CsvCause::Code,   "code"),
    (CsvCause::Night,  "night"),
    (CsvCause::Places, "places"),
    (CsvCause::Twice,  "twice"),
    (CsvCause::Empty,  "empty"),
];

#[test]
fn a_cause_is_one_word(rt: HostRuntime) {
    for &(cause, word) in &CSV_CAUSES {
        reads(&rt, word, cause.word(), word);
    }
}

#[rattlefmt::skip]
const ITEMS: [(Item, &str); 9] = [
    (Item::Transaction { step: 1, option: 1 },        "T1.1"),
    (Item::Transaction { step: 24, option: 8 },       "T24.8"),
    (Item::Compensation { step: 1, option: 1 },       "C1.1"),
    (Item::Compensation { step: 12, option: 3 },      "C12.3"),
    (Item::Turn { target: 0, cause: Cause::Stop },    "B0s"),
    (Item::Turn { target: 1, cause: Cause::Refused }, "B1r"),
    (Item::Turn { target: 24, cause: Cause::Asked },  "B24a"),
    (Item::Save { position: 0 },                      "S0"),
    (Item::Save { position: 24 },                     "S24"),
];

#[test]
fn an_item_has_its_text(rt: HostRuntime) {
    for &(item, text) in &ITEMS {
        is_written(&rt, item.text(rt.alloc()), text);
    }
}

// the position, the phase, the state, its first word
#[rattlefmt::skip]
const STATES: [(usize, Phase, &str, &str); 6] = [
    (0,  Phase::Run,     "run 0",        "run"),
    (24, Phase::Run,     "run 24",       "run"),
    (5,  Phase::Back(2), "back 5 to 2",  "back"),
    (1,  Phase::Back(0), "back 1 to 0",  "back"),
    (6,  Phase::Ended,   "ended 6",      "ended"),
    (0,  Phase::Undone,  "undone 0",     "undone"),
];

#[test]
fn a_state_tells_where_a_journey_is(rt: HostRuntime) {
    for &(pos, phase, state, word) in &STATES {
        let cursor = Cursor {
            pos,
            phase,
            used: 3,
        };
        is_written(&rt, cursor.state(rt.alloc()), state);
        reads(&rt, state, phase.word(), word);
    }
}

#[rattlefmt::skip]
const LINES: [&str; 18] = [
    "loaded a 1",
    "loaded b1 2",
    "loaded -09-az 1999",
    "loaded abcdefghijklmnopqrstuvwx 2000",
    "journey 1 begun",
    "journey 999999999999 begun",
    "journey 1 T1.1 ended 1",
    "journey 1 T1.1 run 1",
    "journey 1 T24.8 run 24",
    "journey 2 B0r back 1 to 0",
    "journey 2 C1.1 undone 0",
    "journey 1 B0r undone 0",
    "journey 1 B1r run 1",
    "journey 1 B2a back 5 to 2",
    "journey 1 C5.1 back 4 to 2",
    "journey 1 B24s back 24 to 24",
    "journey 1 S2 run 2",
    "journey 999999999999 S0 ended 24",
];

#[test]
fn a_line_is_read_and_written_back(rt: HostRuntime) {
    for &line in &LINES {
        let reply = Reply::from_line(rt.alloc(), line).expect(&rt, line);
        is_written(&rt, reply.expect(&rt, line).line(rt.alloc()), line);
    }
}

#[rattlefmt::skip]
const NO_LINES: [(&str, &str); 46] = [
    ("nothing",                      ""),
    ("a blank",                      " "),
    ("one word",                     "loaded"),
    ("no number of rows",            "loaded a"),
    ("no name",                      "loaded  1"),
    ("a capital in a name",          "loaded A 1"),
    ("a name of 25 bytes",           "loaded abcdefghijklmnopqrstuvwxy 1"),
    ("no row",                       "loaded a 0"),
    ("2,001 rows",                   "loaded a 2001"),
    ("a zero in front",              "loaded a 01"),
    ("a sign",                       "loaded a +1"),
    ("two blanks",                   "loaded a  1"),
    ("a blank in front",             " loaded a 1"),
    ("a blank behind",               "loaded a 1 "),
    ("a line feed",                  "loaded a 1\n"),
    ("a carriage return",            "loaded a 1\r"),
    ("journey 0",                    "journey 0 begun"),
    ("thirteen digits",              "journey 1000000000000 begun"),
    ("a journey with a zero",        "journey 01 begun"),
    ("a number past 64 bits",        "journey 18446744073709551617 begun"),
    ("another word",                 "journey 1 began"),
    ("a capital",                    "Journey 1 begun"),
    ("an item and no state",         "journey 1 T1.1"),
    ("step 0",                       "journey 1 T0.1 run 0"),
    ("step 25",                      "journey 1 T25.1 run 1"),
    ("option 0",                     "journey 1 T1.0 run 1"),
    ("option 9",                     "journey 1 C1.9 run 1"),
    ("a step with a zero",           "journey 1 T01.1 run 1"),
    ("no dot",                       "journey 1 T11 run 1"),
    ("two dots",                     "journey 1 C1.1.1 run 1"),
    ("a small letter",               "journey 1 t1.1 run 1"),
    ("target 25",                    "journey 1 B25a run 1"),
    ("no cause",                     "journey 1 B1 run 1"),
    ("another cause",                "journey 1 B1x run 1"),
    ("no target",                    "journey 1 Bs run 1"),
    ("save-point 25",                "journey 1 S25 run 1"),
    ("no save-point",                "journey 1 S run 1"),
    ("position 25",                  "journey 1 T1.1 run 25"),
    ("another phase",                "journey 1 T1.1 runs 1"),
    ("undone above 0",               "journey 1 C2.1 undone 1"),
    ("undone at two zeros",          "journey 1 C1.1 undone 00"),
    ("a target past the last step",  "journey 1 C1.1 back 1 to 25"),
    ("back to nowhere",              "journey 1 C1.1 back 1"),
    ("another word before a target", "journey 1 C1.1 back 1 at 0"),
    ("a target with a zero",         "journey 1 C1.1 back 1 to 00"),
    ("a word behind",                "journey 1 T1.1 ended 1 1"),
];

#[test]
fn another_line_is_no_reply(rt: HostRuntime) {
    for &(case, line) in &NO_LINES {
        is_read(&rt, rt.alloc(), case, line, None);
    }
}

#[test]
fn a_reply_is_read_with_all_its_parts(rt: HostRuntime) {
    let alloc = rt.alloc();
    let name = Name::parse("b1").expect(&rt, "a name");
    let loaded = Reply::Loaded { name, rows: 2 };
    is_read(&rt, alloc, "loaded", "loaded b1 2", Some(loaded));
    let begun = Reply::Begun { id: 7 };
    is_read(&rt, alloc, "begun", "journey 7 begun", Some(begun));
    for &(item, text) in &ITEMS {
        for &(pos, phase, state, _) in &STATES {
            let line = format!(in alloc; "journey 3 {text} {state}").expect(&rt, "a line");
            let moved = Reply::Moved {
                id: 3,
                item,
                pos,
                phase,
            };
            is_written(&rt, moved.line(alloc), &line);
            is_read(&rt, alloc, &line, &line, Some(moved));
        }
    }
    replies_have_one_line();
}

// what is tried, the text, and whether it is a batch's name, an agent, a key
#[rattlefmt::skip]
const NAMES: [(&str, &str, bool, bool, bool); 16] = [
    ("nothing",            "",                                  false, false, false),
    ("one letter",         "a",                                 true,  true,  true),
    ("the last ones",      "az09",                              true,  true,  true),
    ("a dash",             "-",                                 true,  false, true),
    ("capitals",           "AZ",                                false, false, true),
    ("another sign",       "a_b",                               false, false, false),
    ("a blank",            "a b",                               false, false, false),
    ("beyond ASCII",       "é",                                 false, false, false),
    ("bytes beside a-z",   "`{/:",                              false, false, false),
    ("bytes beside A-Z",   "@[",                                false, false, false),
    ("sixteen bytes",      "abcdefghijklmnop",                  true,  true,  true),
    ("seventeen bytes",    "abcdefghijklmnopq",                 true,  false, true),
    ("twenty-four bytes",  "abcdefghijklmnopqrstuvwx",          true,  false, true),
    ("twenty-five bytes",  "abcdefghijklmnopqrstuvwxy",         false, false, true),
    ("thirty-two bytes",   "abcdefghijklmnopqrstuvwxyzABCDEF",  false, false, true),
    ("thirty-three bytes", "abcdefghijklmnopqrstuvwxyzABCDEFG", false, false, false),
];

#[test]
fn names_agents_and_keys_have_their_forms(rt: HostRuntime) {
    for &(case, text, is_name, is_agent, is_key) in &NAMES {
        let name = Name::parse(text);
        holds(&rt, case, name.is_some() == is_name);
        if let Some(name) = name {
            reads(&rt, case, name.as_str(), text);
        }
        let agent = Agent::parse(text);
        holds(&rt, case, agent.is_some() == is_agent);
        if let Some(agent) = agent {
            reads(&rt, case, agent.as_str(), text);
        }
        let key = Key::parse(text);
        holds(&rt, case, key.is_some() == is_key);
        if let Some(key) = key {
            reads(&rt, case, key.as_str(), text);
        }
    }
}

#[test]
fn names_are_equal_where_their_texts_are(rt: HostRuntime) {
    holds(&rt, "a name", Name::parse("a-1") == Name::parse("a-1"));
    holds(&rt, "names", Name::parse("a-1") != Name::parse("a-2"));
    holds(&rt, "an agent", Agent::parse("ann") == Agent::parse("ann"));
    holds(&rt, "agents", Agent::parse("ann") != Agent::parse("anne"));
    holds(&rt, "a key", Key::parse("K") == Key::parse("K"));
    holds(&rt, "keys", Key::parse("K") != Key::parse("k"));
}

#[test]
fn an_ask_keeps_its_parts(rt: HostRuntime) {
    let house = Agent::house();
    reads(&rt, "the house", house.as_str(), "desk");
    let key = Key::parse("k1").expect(&rt, "a key");
    let text = Vec::from_slice(rt.alloc(), b"/journeys\n").expect(&rt, "a text");
    let ask = Ask::new(house, key, text);
    holds(&rt, "the agent", ask.agent() == house);
    holds(&rt, "the key", ask.key() == key);
    holds(&rt, "the text", ask.text() == b"/journeys\n".as_slice());
}

// stops the test where something else is wrong with a batch
fn is_wrong(rt: &impl Abort, case: &str, found: Option<BadBatch>, expected: Option<BadBatch>) {
    assert_eq!(rt; found, expected, "{case}");
}

/// A row of each of so many nights, from the first one on.
fn nights(rt: &impl Abort, alloc: Global, count: u16) -> Vec<Row> {
    let cell = Cell::parse("R/INN/DBL/2000-01-01").expect(rt, "a cell");
    let mut rows = Vec::new(alloc);
    for day in 0..count {
        let night = Night::from_day(10957 + u32::from(day)).expect(rt, "a night");
        rows.push(Row::new(Cell { night, ..cell }, 4))
            .expect(rt, "a row");
    }
    rows
}

// how many rows there are, and what is wrong with them
#[rattlefmt::skip]
const COUNTS: [(&str, u16, Option<BadBatch>); 4] = [
    ("no row",           0,    Some(BadBatch::Count)),
    ("one row",          1,    None),
    ("the most rows",    2000, None),
    ("one row too many", 2001, Some(BadBatch::Count)),
];

#[test]
fn a_batch_has_at_most_2000_rows(rt: HostRuntime) {
    let name = Name::parse("b1").expect(&rt, "a name");
    for &(case, count, wrong) in &COUNTS {
        let batch = Batch::new(rt.alloc(), name, nights(&rt, rt.alloc(), count));
        is_wrong(&rt, case, batch.err(), wrong);
    }
}

// the cell of a row after that of the room DBL of INN on 2030-06-01, and whether they are equal
#[rattlefmt::skip]
const CELLS: [(&str, bool); 6] = [
    ("R/INN/DBL/2030-06-01", true),
    ("R/INN/DBL/2030-06-02", false),
    ("R/INN/A/2030-06-01",   false),
    ("R/INN2/DBL/2030-06-01", false),
    ("C/INN/DBL/2030-06-01", false),
    ("F/INN/DBL/2030-06-01", false),
];

#[test]
fn a_batch_has_each_cell_once(rt: HostRuntime) {
    let name = Name::parse("b1").expect(&rt, "a name");
    for &(text, is_twice) in &CELLS {
        let first = Cell::parse("R/INN/DBL/2030-06-01").expect(&rt, text);
        let other = Cell::parse(text).expect(&rt, text);
        let expected = [Row::new(first, 4), Row::new(other, 5)];
        let rows = Vec::from_slice(rt.alloc(), &expected).expect(&rt, text);
        let batch = Batch::new(rt.alloc(), name, rows);
        if let Ok(batch) = &batch {
            holds(&rt, text, batch.name() == name);
            holds(&rt, text, batch.rows() == expected.as_slice());
            let again = batch.clone(rt.alloc()).expect(&rt, text);
            holds(&rt, text, again.rows() == expected.as_slice());
        }
        let wrong = is_twice.then_some(BadBatch::Twice);
        is_wrong(&rt, text, batch.err(), wrong);
    }
}

// the cells of some rows, and the index of the first one that stood before
#[rattlefmt::skip]
const REPEATS: [(&[&str], Option<usize>); 6] = [
    (&[],                                                          None),
    (&["F/AL/A1/2030-06-01"],                                      None),
    (&["F/AL/A1/2030-06-01", "F/AL/A1/2030-06-02"],                None),
    (&["F/AL/A1/2030-06-02", "F/AL/A1/2030-06-01"],                None),
    (&["F/AL/A1/2030-06-01", "F/AL/A1/2030-06-01"],                Some(1)),
    (&["F/A/A/2030-06-01", "R/A/A/2030-06-01", "F/A/A/2030-06-01"], Some(2)),
];

/// A row of each of these cells.
fn rows_at(rt: &impl Abort, alloc: Global, cells: &[&str]) -> Vec<Row> {
    let mut rows = Vec::new(alloc);
    for text in cells {
        let cell = Cell::parse(text).expect(rt, text);
        rows.push(Row::new(cell, 4)).expect(rt, text);
    }
    rows
}

#[test]
fn a_repeat_is_found_at_its_place(rt: HostRuntime) {
    for (cells, place) in &REPEATS {
        let rows = rows_at(&rt, rt.alloc(), cells);
        let found = first_repeat(rt.alloc(), &rows).expect(&rt, "a place");
        assert_eq!(rt; found, *place, "{cells:?}");
    }
}
