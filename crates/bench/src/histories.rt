//! How long it takes to read a journey and its history from an opened desk.
use report_writers::start_items;
use saga_core::RowSource;
use sqlite::{Alter, Connection};
use std::alloc::Global;
use std::io::{self, ErrorKind};
use std::time::{Duration, Instant};
use tables::{Opened, open_from};

/// How often they are read. The shortest time counts, to reduce the influence of other work on the machine.
const TRIALS: u32 = 200;

/// Opens the database of a file, and prints how many items the journey of that number has, and how long it took to read
/// the journey and all its items: the shortest time, in microseconds, without the opening.
pub(crate) fn ask_history(rt: &HostRuntime, file: &str, journey: &str) -> io::Result<()> {
    let Ok(journey) = journey.parse::<u64>() else {
        return Err(io::Error::from(ErrorKind::InvalidInput));
    };
    let Ok(conn) = Connection::open(rt, file) else {
        return Err(fault());
    };
    let Ok(mut opened) = open_from(conn) else {
        return Err(fault());
    };
    let mut items = 0;
    let mut shortest = Duration::MAX;
    for _ in 0..TRIALS {
        let start = Instant::now(rt)?;
        items = count_items(rt.alloc(), &mut opened, journey)?;
        shortest = shortest.min(start.elapsed(rt)?);
    }
    let asked = shortest.as_secs_f64() * 1e6;
    println!(rt; "history {journey} {items} {asked:.1}")
}

/// Reads a journey and its items, one after another, and returns how many items there are.
fn count_items<S: Alter>(alloc: Global, opened: &mut Opened<S>, journey: u64) -> io::Result<u32> {
    match opened.journey_of(alloc, journey) {
        Ok(Some(_)) => {}
        _ => return Err(fault()),
    }
    let version = opened.version();
    let Ok(mut rows) = start_items(opened.connection(), version, journey) else {
        return Err(fault());
    };
    for count in 0..u32::MAX {
        match rows.next_row() {
            Ok(Some(_)) => {}
            Ok(None) => return Ok(count),
            Err(_) => return Err(fault()),
        }
    }
    Err(fault())
}

/// The error that represents every fault.
fn fault() -> io::Error {
    io::Error::from(ErrorKind::Other)
}
