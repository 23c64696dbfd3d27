// What no clause says: recovery succeeds given enough memory, and its result for worked journeys. The expected items
// are computed by hand from the rules.
use allotment::{Cell, Row};
use commands::{Batch, Command, Fault, Name, Phase};
use memory_book::MemBook;
use plan::Plan;
use recovery::{Ready, recover};
use saga_core::Book;
use std::alloc::Global;
use std::process::Abort;
use std::test::Fail;

mod counting;
mod failing;
mod plain;
mod random;

use counting::CountingBook;
use failing::FailingBook;

/// The rows in a text, separated by commas, each a cell and its places.
fn rows_of(alloc: Global, text: &str) -> Result<Vec<Row>, Fail> {
    let mut rows = Vec::new(alloc);
    for part in text.split(", ") {
        let (cell, places) = part.split_once(' ').ok_or("no places")?;
        let cell = Cell::parse(cell).ok_or("no cell")?;
        let places = places.parse::<u32>()?;
        if places <= 100_000 {
            rows.push(Row::new(cell, places))?;
        }
    }
    Ok(rows)
}

/// The command of a line.
fn command_of(alloc: Global, line: &str) -> Result<Command, Fail> {
    let (word, rest) = line.split_once(' ').ok_or("no command")?;
    Ok(match word {
        "load" => {
            let name = Name::parse("a").ok_or("no name")?;
            Command::Load(Batch::new(alloc, name, rows_of(alloc, rest)?)?)
        }
        "begin" => Command::Begin(Plan::from_line(alloc, rest)?),
        "abort" => {
            let (id, position) = rest.split_once(' ').ok_or("no position")?;
            Command::Abort(id.parse()?, position.parse()?)
        }
        "save" => Command::Save(rest.parse()?),
        _ => Command::Step(rest.parse()?),
    })
}

/// A new desk after these lines.
fn after(alloc: Global, lines: &[&str]) -> Result<MemBook, Fail> {
    let mut book = MemBook::new(alloc);
    for line in lines {
        let command = command_of(alloc, line)?;
        book.act(&command, None)?;
    }
    Ok(book)
}

/// The items of a journey, with a blank between them.
fn items<B: Book>(alloc: Global, book: &mut B, id: u64) -> Result<String, Fail> {
    let mut line = String::new(alloc);
    for item in &book.history(id)? {
        if !line.is_empty() {
            line.push(' ')?;
        }
        line.push_str(item.text(alloc)?.as_str())?;
    }
    Ok(line)
}

/// Whether each cell has as many free places as were allotted.
fn is_all_free<B: Book>(book: &mut B) -> Result<bool, Fail> {
    for (_, held) in &book.stock()? {
        if held.free != held.allot {
            return Ok(false);
        }
    }
    Ok(true)
}

/// Recovers the book, which makes so many events.
fn recovered(rt: &impl Abort, book: MemBook, events: u64) -> Result<Ready<MemBook>, Fail> {
    match recover(book) {
        Ok((ready, made)) => {
            assert_eq!(rt; made, events);
            Ok(ready)
        }
        Err((_, fault)) => Err(fault.into()),
    }
}

/// A case: the lines on a new desk, how many events recovery makes after them, and then each journey's items and
/// whether it ended.
#[derive(Drop)]
struct Case<'a> {
    lines: &'a [&'a str],
    events: u64,
    journeys: &'a [(&'a str, Phase)],
}

/// Recovers the desk of a case. A second recovery has nothing to do.
fn comes_to(rt: &impl Abort, alloc: Global, case: &Case) -> Result<Ready<MemBook>, Fail> {
    let book = after(alloc, case.lines)?;
    let mut ready = recovered(rt, book, case.events)?;
    let mut id = 0u64;
    for (told, phase) in case.journeys {
        id = id.saturating_add(1);
        assert_eq!(rt; items(alloc, &mut ready, id)?.as_str(), *told);
        let record = ready.journey(id)?.ok_or("no journey")?;
        assert_eq!(rt; record.cursor.phase, *phase);
    }
    assert!(rt; ready.first_unfinished(0)?.is_none());
    recovered(rt, ready.into_inner(), 0)
}

#[test]
fn a_new_desk_has_nothing_to_recover(rt: HostRuntime) -> Result<(), Fail> {
    let case = Case {
        lines: &[],
        events: 0,
        journeys: &[],
    };
    comes_to(&rt, rt.alloc(), &case)?;
    Ok(())
}

#[test]
fn a_journey_that_was_only_begun_is_undone(rt: HostRuntime) -> Result<(), Fail> {
    let case = Case {
        lines: &["begin F/AL/A1/2030-06-01/1/1!0"],
        events: 1,
        journeys: &[("B0s", Phase::Undone)],
    };
    comes_to(&rt, rt.alloc(), &case)?;
    Ok(())
}

#[test]
fn compensations_come_last_step_first(rt: HostRuntime) -> Result<(), Fail> {
    let case = Case {
        lines: &[
            "load F/AL/A1/2030-06-01 10, T/BUS/X/2030-06-01 10, R/INN/DBL/2030-06-01 10, \
             R/INN/DBL/2030-06-02 10",
            "begin F/AL/A1/2030-06-01/1/2;T/BUS/X/2030-06-01/1/2;R/INN/DBL/2030-06-01/2/1!0",
            "step 1",
            "step 1",
        ],
        events: 3,
        journeys: &[("T1.1 T2.1 B0s C2.1 C1.1", Phase::Undone)],
    };
    let mut ready = comes_to(&rt, rt.alloc(), &case)?;
    assert!(rt; is_all_free(&mut ready)?);
    Ok(())
}

const SIX: &str = "load F/AL/A1/2030-06-01 10, F/AL/A2/2030-06-01 10, F/AL/A3/2030-06-01 10, \
     F/AL/A4/2030-06-01 10, F/AL/A5/2030-06-01 10, F/AL/A6/2030-06-01 10";

const MARKED_1_3: &str =
    "begin F/AL/A1/2030-06-01/1/1*;F/AL/A2/2030-06-01/1/1;F/AL/A3/2030-06-01/1/1*;\
     F/AL/A4/2030-06-01/1/1;F/AL/A5/2030-06-01/1/1;F/AL/A6/2030-06-01/1/1!0";

const MARKED_2_4: &str =
    "begin F/AL/A1/2030-06-01/1/1;F/AL/A2/2030-06-01/1/1*;F/AL/A3/2030-06-01/1/1;\
     F/AL/A4/2030-06-01/1/1*;F/AL/A5/2030-06-01/1/1;F/AL/A6/2030-06-01/1/1!0";

/// The desk after a recovery whose store failed.
fn stopped(book: FailingBook) -> Result<MemBook, Fail> {
    match recover(book) {
        Err((stopped, Fault::Store)) => Ok(stopped.into_inner()),
        Err((_stopped, Fault::Memory)) => Err("out of memory".into()),
        Ok((_ready, _made)) => Err("the store did not fail".into()),
    }
}

#[test]
fn a_second_stop_finds_a_later_save_point(rt: HostRuntime) -> Result<(), Fail> {
    let alloc = rt.alloc();
    let book = after(alloc, &[SIX, MARKED_1_3, "step 1", "step 1"])?;
    let mut book = stopped(FailingBook::new(book, 6))?;
    assert_eq!(&rt;
        items(alloc, &mut book, 1)?.as_str(),
        "T1.1 T2.1 B1s C2.1 T2.1 T3.1 T4.1 T5.1"
    );
    let mut ready = recovered(&rt, book, 6)?;
    assert_eq!(&rt;
        items(alloc, &mut ready, 1)?.as_str(),
        "T1.1 T2.1 B1s C2.1 T2.1 T3.1 T4.1 T5.1 B3s C5.1 C4.1 T4.1 T5.1 T6.1"
    );
    let record = ready.journey(1)?.ok_or("no journey")?;
    assert_eq!(&rt; record.cursor.phase, Phase::Ended);
    Ok(())
}

#[test]
fn a_journey_that_goes_back_keeps_its_target(rt: HostRuntime) -> Result<(), Fail> {
    let case = Case {
        lines: &[
            SIX,
            MARKED_2_4,
            "step 1",
            "step 1",
            "step 1",
            "step 1",
            "step 1",
            "abort 1 2",
            "step 1",
        ],
        events: 6,
        journeys: &[(
            "T1.1 T2.1 T3.1 T4.1 T5.1 B2a C5.1 C4.1 C3.1 T3.1 T4.1 T5.1 T6.1",
            Phase::Ended,
        )],
    };
    comes_to(&rt, rt.alloc(), &case)?;
    Ok(())
}

#[test]
fn all_journeys_go_back_before_one_goes_on(rt: HostRuntime) -> Result<(), Fail> {
    let case = Case {
        lines: &[
            "load F/AL/A1/2030-06-01 5, T/BUS/Y/2030-06-01 5, R/INN/X/2030-06-01 1",
            "begin F/AL/A1/2030-06-01/1/1*;R/INN/X/2030-06-01/1/1!0",
            "begin R/INN/X/2030-06-01/1/1;T/BUS/Y/2030-06-01/1/1!0",
            "step 1",
            "step 2",
        ],
        events: 4,
        journeys: &[
            ("T1.1 B1s T2.1", Phase::Ended),
            ("T1.1 B0s C1.1", Phase::Undone),
        ],
    };
    comes_to(&rt, rt.alloc(), &case)?;
    Ok(())
}

/// A journey of three steps that takes its first save-point after its first step.
const SAVED_AT_1: [&str; 4] = [
    "load F/AL/A1/2030-06-01 10, T/BUS/X/2030-06-01 10, R/INN/DBL/2030-06-01 10",
    "begin F/AL/A1/2030-06-01/1/1;T/BUS/X/2030-06-01/1/1;R/INN/DBL/2030-06-01/1/1!0",
    "step 1",
    "save 1",
];

/// What follows the first save-point: the lines, how many events recovery makes after them, and then the items.
#[rattlefmt::skip]
const SAVED: [(&[&str], u64, &str); 4] = [
    (&["save 1", "step 1"], 4,
     "T1.1 S1 T2.1 B1s C2.1 T2.1 T3.1"),
    (&["step 1", "save 1"], 2,
     "T1.1 S1 T2.1 S2 B2s T3.1"),
    (&["step 1", "save 1", "abort 1 1", "step 1", "step 1"], 4,
     "T1.1 S1 T2.1 S2 B1a C2.1 T2.1 B1s C2.1 T2.1 T3.1"),
    (&["step 1", "save 1", "abort 1 1", "step 1", "step 1", "save 1"], 2,
     "T1.1 S1 T2.1 S2 B1a C2.1 T2.1 S2 B2s T3.1"),
];

#[test]
fn a_save_point_taken_on_the_way_is_kept(rt: HostRuntime) -> Result<(), Fail> {
    let alloc = rt.alloc();
    for (lines, events, told) in SAVED {
        let mut all = Vec::new(alloc);
        for line in SAVED_AT_1.iter().chain(lines) {
            all.push(*line)?;
        }
        let case = Case {
            lines: &all,
            events,
            journeys: &[(told, Phase::Ended)],
        };
        comes_to(&rt, alloc, &case)?;
    }
    Ok(())
}

#[test]
fn two_hundred_journeys_come_home_after_one_look(rt: HostRuntime) -> Result<(), Fail> {
    let alloc = rt.alloc();
    let mut book = after(
        alloc,
        &["load F/AL/A1/2030-06-01 1000, T/BUS/X/2030-06-01 1000"],
    )?;
    for id in 1..201u64 {
        let begin = command_of(
            alloc,
            "begin F/AL/A1/2030-06-01/1/1;T/BUS/X/2030-06-01/1/1!0",
        )?;
        book.act(&begin, None)?;
        book.act(&Command::Step(id), None)?;
    }
    match recover(CountingBook::new(book)) {
        Ok((ready, made)) => {
            let counted = ready.into_inner();
            assert_eq!(&rt; made, 400);
            assert_eq!(&rt; counted.looks(), 1);
            let mut book = counted.into_inner();
            assert!(&rt; is_all_free(&mut book)?);
            assert!(&rt; book.first_unfinished(0)?.is_none());
        }
        Err((_, fault)) => return Err(fault.into()),
    }
    Ok(())
}
