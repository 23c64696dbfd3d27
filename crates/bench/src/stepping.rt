//! How many steps a second the desk in memory executes, after more and more events.
//!
//! Each journey has 24 steps, each a seat of a different flight. A desk is filled with journeys that have ended; then
//! the steps of more journeys are timed, in turns.
use allotment::{Cell, Row};
use commands::{Batch, Command, Name, Reply};
use memory_book::MemBook;
use plan::Plan;
use saga_core::Book;
use std::alloc::Global;
use std::io::{self, ErrorKind};
use std::time::{Clock, Duration, Instant};

/// How many steps a plan has.
const STEPS: u32 = 24;

/// How many journeys make the steps that are timed.
const TIMED: u32 = 40;

/// How often the whole is measured. The shortest time counts, to reduce the influence of other work on the machine.
const TRIALS: u32 = 15;

/// Prints a row for each number of earlier journeys, each of which made 25 events.
pub(crate) fn compare(rt: &(impl Clock + Print + AllocGlobal)) -> io::Result<()> {
    println!(rt; "events steps/s ratio")?;
    let first = steps_a_second(rt, 40)?;
    println!(rt; "1000 {first:.0} 1.000")?;
    for (journeys, events) in [(400u32, 10_000u32), (4_000, 100_000)] {
        let steps = steps_a_second(rt, journeys)?;
        let ratio = first / steps;
        println!(rt; "{events} {steps:.0} {ratio:.3}")?;
    }
    Ok(())
}

/// How many steps a second are executed after so many journeys.
fn steps_a_second(rt: &(impl Clock + AllocGlobal), journeys: u32) -> io::Result<f64> {
    let mut shortest = time_of_steps(rt, journeys)?;
    for _ in 1..TRIALS {
        shortest = shortest.min(time_of_steps(rt, journeys)?);
    }
    Ok(f64::from(TIMED * STEPS) / shortest.as_secs_f64())
}

/// The time of the steps after so many journeys, in one trial.
fn time_of_steps(rt: &(impl Clock + AllocGlobal), journeys: u32) -> io::Result<Duration> {
    let mut book = filled(rt.alloc(), journeys)?;
    begin(rt.alloc(), &mut book, TIMED)?;
    let start = Instant::now(rt)?;
    for _ in 0..STEPS {
        for journey in 0..TIMED {
            let id = u64::from(journeys) + u64::from(journey) + 1;
            step(&mut book, id)?;
        }
    }
    start.elapsed(rt)
}

/// A desk on which so many journeys have ended.
fn filled(alloc: Global, journeys: u32) -> io::Result<MemBook> {
    let mut book = MemBook::new(alloc);
    match book.act(&Command::Load(seats(alloc)?), None) {
        Ok(Reply::Loaded { .. }) => {}
        _ => return Err(unexpected()),
    }
    begin(alloc, &mut book, journeys)?;
    for journey in 0..journeys {
        for _ in 0..STEPS {
            step(&mut book, u64::from(journey) + 1)?;
        }
    }
    Ok(book)
}

/// Many seats of each flight.
fn seats(alloc: Global) -> io::Result<Batch> {
    let mut rows = Vec::new(alloc);
    for flight in 1..=STEPS {
        let cell = format!(in alloc; "F/AL/A{flight}/2030-06-01")?;
        match Cell::parse(cell.as_str()) {
            Some(cell) => rows.push(Row::new(cell, 100_000))?,
            None => return Err(unexpected()),
        }
    }
    let Some(name) = Name::parse("seats") else {
        return Err(unexpected());
    };
    match Batch::new(alloc, name, rows) {
        Ok(batch) => Ok(batch),
        Err(_) => Err(unexpected()),
    }
}

/// The plan with a seat of each flight.
fn plan(alloc: Global) -> io::Result<Plan> {
    let mut line = String::new(alloc);
    for flight in 1..=STEPS {
        if flight > 1 {
            line.push_str(";")?;
        }
        write!(line, "F/AL/A{flight}/2030-06-01/1/1")?;
    }
    line.push_str("!0")?;
    match Plan::from_line(alloc, line.as_str()) {
        Ok(plan) => Ok(plan),
        Err(_) => Err(unexpected()),
    }
}

/// Begins so many journeys.
fn begin(alloc: Global, book: &mut MemBook, journeys: u32) -> io::Result<()> {
    let command = Command::Begin(plan(alloc)?);
    for _ in 0..journeys {
        match book.act(&command, None) {
            Ok(Reply::Begun { .. }) => {}
            _ => return Err(unexpected()),
        }
    }
    Ok(())
}

/// Makes one step, which must be executed.
fn step(book: &mut MemBook, id: u64) -> io::Result<()> {
    match book.act(&Command::Step(id), None) {
        Ok(Reply::Moved { .. }) => Ok(()),
        _ => Err(unexpected()),
    }
}

fn unexpected() -> io::Error {
    io::Error::from(ErrorKind::InvalidData)
}
