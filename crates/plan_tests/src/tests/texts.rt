//! Texts. Values from outside: dates of the calendar, and texts as the formats have them.
ghost use Rattle.std.specs.Prelude.{IsTrue};

use allotment::{Bad, Cell, Code, Kind, Night, NightDate, Row, Short, values_have_one_text};
use std::alloc::AllocError;
use std::process::Abort;

/// Stops the test where this is false.
pub fn holds(rt: &impl Abort, case: &str, is_so: bool)
    ensures { IsTrue is_so }
{
    assert!(rt; is_so, "{case}");
}

/// Stops the test where another text was found.
pub fn reads(rt: &impl Abort, case: &str, found: &str, expected: &str) {
    assert_eq!(rt; found, expected, "{case}");
}

/// Stops the test where another text was written, or where it was out of memory.
pub fn is_written(
    rt: &impl Abort,
    case: &str,
    written: Result<String, AllocError>,
    expected: &str,
) {
    reads(rt, case, written.expect(rt, case).as_str(), expected);
}

// the kind, its number, its letter, its word, how many nights a want of it may have
#[rattlefmt::skip]
const KINDS: [(Kind, u8, &str, &str, u8); 4] = [
    (Kind::Flight,   0, "F", "flight",   1),
    (Kind::Room,     1, "R", "room",     30),
    (Kind::Transfer, 2, "T", "transfer", 1),
    (Kind::Cover,    3, "C", "cover",    60),
];

#[test]
fn a_kind_is_read_as_it_is_written(rt: HostRuntime) {
    for &(kind, number, letter, word, most) in &KINDS {
        holds(&rt, word, kind.number() == number);
        reads(&rt, word, kind.letter(), letter);
        reads(&rt, word, kind.word(), word);
        holds(&rt, word, kind.most_nights() == most);
        holds(&rt, word, Kind::from_number(number) == Some(kind));
        holds(&rt, word, Kind::from_letter(letter) == Some(kind));
        holds(&rt, word, Kind::from_word(word) == Some(kind));
    }
}

#[rattlefmt::skip]
const NO_KINDS: [(&str, &str); 7] = [
    ("nothing",              ""),
    ("a small letter",       "f"),
    ("another letter",       "X"),
    ("two letters",          "FF"),
    ("a blank behind",       "F "),
    ("a word in capitals",   "FLIGHT"),
    ("the start of a word",  "fligh"),
];

#[test]
fn another_text_is_no_kind(rt: HostRuntime) {
    for &(case, text) in &NO_KINDS {
        holds(&rt, case, Kind::from_letter(text).is_none());
        holds(&rt, case, Kind::from_word(text).is_none());
    }
    holds(&rt, "past the last number", Kind::from_number(4).is_none());
}

#[rattlefmt::skip]
const CODES: [(&str, &str, bool); 10] = [
    ("one capital",        "A",          true),
    ("one digit",          "0",          true),
    ("the last ones",      "Z9",         true),
    ("eight bytes",        "ABCDEFG8",   true),
    ("nothing",            "",           false),
    ("nine bytes",         "ABCDEFGH9",  false),
    ("a small letter",     "Al",         false),
    ("a byte below 0",     "A/",         false),
    ("bytes past 9 and Z", ":[",         false),
    ("beyond ASCII",       "É",          false),
];

#[test]
fn a_code_has_one_to_eight_capitals_and_digits(rt: HostRuntime) {
    for &(case, text, is_code) in &CODES {
        let code = Code::parse(text);
        holds(&rt, case, code.is_some() == is_code);
        if let Some(code) = code {
            reads(&rt, case, code.as_str(), text);
            holds(&rt, case, Code::parse(text) == Some(code));
        }
    }
    let is_other = Code::parse("A1") != Code::parse("A2");
    holds(&rt, "other codes differ", is_other);
}

#[rattlefmt::skip]
const SHORTS: [(&str, &str, bool); 6] = [
    ("nothing",              "",       true),
    ("one byte",             "a",      true),
    ("as many as there are", "abcd",   true),
    ("one more",             "abcde",  false),
    ("the last of ASCII",    "\u{7f}", true),
    ("the first beyond",     "\u{80}", false),
];

#[test]
fn a_short_text_is_ascii_and_fits(rt: HostRuntime) {
    for &(case, text, is_short) in &SHORTS {
        let short = Short::<4>::new(text);
        holds(&rt, case, short.is_some() == is_short);
        if let Some(short) = short {
            reads(&rt, case, short.as_str(), text);
            holds(&rt, case, short.len() == text.len());
            holds(&rt, case, short.is_empty() == text.is_empty());
            holds(&rt, case, Short::<4>::new(text) == Some(short));
        }
    }
    let is_other = Short::<4>::new("ab") != Short::<4>::new("abc");
    holds(&rt, "other texts differ", is_other);
}

// the days between these dates and 1970-01-01, by the Gregorian calendar
#[rattlefmt::skip]
const NIGHTS: [(&str, u32); 12] = [
    ("2000-01-01", 10957),
    ("2000-02-28", 11015),
    ("2000-02-29", 11016),
    ("2000-03-01", 11017),
    ("2000-12-31", 11322),
    ("2001-01-01", 11323),
    ("2024-02-29", 19782),
    ("2030-06-01", 22066),
    ("2032-02-29", 22704),
    ("2038-01-19", 24855),
    ("2099-12-30", 47480),
    ("2099-12-31", 47481),
];

#[test]
fn a_night_is_read_as_it_is_written(rt: HostRuntime) {
    for &(text, day) in &NIGHTS {
        let night = Night::from_day(day).expect(&rt, text);
        holds(&rt, text, night.day() == day);
        is_written(&rt, text, night.text(rt.alloc()), text);
        holds(&rt, text, Night::parse(text) == Ok(night));
    }
}

// the year from 0 on at 2000, the month and the day of some of them
#[rattlefmt::skip]
const DATES: [(u32, (u8, u8, u8)); 5] = [
    (10957, (0,  1,  1)),
    (11016, (0,  2,  29)),
    (22066, (30, 6,  1)),
    (22704, (32, 2,  29)),
    (47481, (99, 12, 31)),
];

#[test]
fn a_night_has_its_date(rt: HostRuntime) {
    for &(number, (year, month, day)) in &DATES {
        let night = Night::from_day(number).expect(&rt, "a night");
        let date = NightDate { year, month, day };
        holds(&rt, "its date", night.date() == date);
    }
}

#[rattlefmt::skip]
const NO_NIGHTS: [(&str, &str); 21] = [
    ("nothing",                     ""),
    ("the day before the first",    "1999-12-31"),
    ("the day after the last",      "2100-01-01"),
    ("no leap year",                "2030-02-29"),
    ("no leap year, the last one",  "2099-02-29"),
    ("a day too many in June",      "2030-06-31"),
    ("day 32",                      "2030-01-32"),
    ("day 0",                       "2030-01-00"),
    ("month 0",                     "2030-00-01"),
    ("month 13",                    "2030-13-01"),
    ("without dashes",              "20300601"),
    ("one digit for a month",       "2030-6-01"),
    ("with a time",                 "2030-06-01T00:00"),
    ("with a plus",                 "+2030-06-01"),
    ("with six digits for a year",  "+002030-06-01"),
    ("with a blank behind it",      "2030-06-01 "),
    ("with a blank before it",      " 2030-06-01"),
    ("with other dashes",           "2030/06/01"),
    ("a week's day",                "2030-W22-6"),
    ("two dates",                   "2030-06-01/2030-06-02"),
    ("with a zero before it",       "02030-06-01"),
];

#[test]
fn another_text_is_no_night(rt: HostRuntime) {
    for &(case, text) in &NO_NIGHTS {
        holds(&rt, case, Night::parse(text) == Err(Bad::Night));
    }
    holds(
        &rt,
        "before the first day",
        Night::from_day(10956).is_none(),
    );
    holds(&rt, "after the last day", Night::from_day(47482).is_none());
}

#[rattlefmt::skip]
const CELLS: [(&str, &str, bool); 16] = [
    ("a flight",           "F/AL/A1/2030-06-01",        true),
    ("a room",             "R/INN/DBL/2000-01-01",      true),
    ("a transfer",         "T/TAXI/AIRPORT8/2099-12-31", true),
    ("a cover",            "C/0/9/2032-02-29",          true),
    ("nothing",            "",                          false),
    ("three parts",        "F/AL/A1",                   false),
    ("five parts",         "F/AL/A1/2030-06-01/1",      false),
    ("a slash behind",     "F/AL/A1/2030-06-01/",       false),
    ("a slash before",     "/F/AL/A1/2030-06-01",       false),
    ("an empty part",      "F//A1/2030-06-01",          false),
    ("no kind",            "X/AL/A1/2030-06-01",        false),
    ("a small kind",       "f/AL/A1/2030-06-01",        false),
    ("no supplier",        "F/al/A1/2030-06-01",        false),
    ("no product",         "F/AL/A1234567890/2030-06-01", false),
    ("no night",           "F/AL/A1/2030-02-29",        false),
    ("a blank",            "F/AL/A1/2030-06-01 ",       false),
];

#[test]
fn a_cell_is_read_as_it_is_written(rt: HostRuntime) {
    for &(case, text, is_cell) in &CELLS {
        let cell = Cell::parse(text);
        holds(&rt, case, cell.is_some() == is_cell);
        if let Some(cell) = cell {
            is_written(&rt, case, cell.text(rt.alloc()), text);
            let same = Cell::new(cell.kind(), cell.supplier(), cell.product(), cell.night());
            holds(&rt, case, same == cell);
        }
    }
}

#[test]
fn a_row_is_its_cell_and_its_places(rt: HostRuntime) {
    let cell = Cell::parse("R/INN/DBL/2030-06-01").expect(&rt, "a cell");
    let full = Row::new(cell, 100_000);
    let none = Row::new(cell, 0);
    let text = full.text(rt.alloc());
    is_written(&rt, "the most places", text, "R/INN/DBL/2030-06-01/100000");
    let text = none.text(rt.alloc());
    is_written(&rt, "no places", text, "R/INN/DBL/2030-06-01/0");
    holds(&rt, "the cell", full.cell() == cell);
    holds(&rt, "the places", full.places() == 100_000);
    holds(&rt, "rows with other places differ", full != none);
}

// a law does nothing at run time
#[test]
fn the_law_of_the_texts_can_be_called() {
    values_have_one_text();
}
