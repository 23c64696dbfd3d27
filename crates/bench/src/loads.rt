//! How long a load of 2,000 new rows takes.
use allotment::{Cell, Code, Kind, Night, Row};
use commands::{Batch, Command, Name};
use saga_core::Book;
use sqlite::{Alter, Connection};
use std::alloc::Global;
use std::io::{self, ErrorKind};
use std::time::{Duration, Instant};
use tables::{TableBook, open_from};

/// How many products a batch has.
const PRODUCTS: u32 = 8;

/// How many nights of each product a batch has.
const NIGHTS: u32 = 250;

/// The first night, 2030-06-01.
const FIRST: u32 = 22_066;

/// How many places each cell gets.
const PLACES: u32 = 100_000;

/// The shortest times to load a batch, and to make the batch of its rows before that.
#[derive(Clone, Copy)]
struct Times {
    loaded: Duration,
    made: Duration,
}

/// Loads so many batches into the database of a file, and prints how long one took, and how long it took to make the
/// batch of its rows: the shortest times, in microseconds.
pub(crate) fn load_batches(rt: &HostRuntime, file: &str, count: &str) -> io::Result<()> {
    let Ok(count) = count.parse::<u32>() else {
        return Err(io::Error::from(ErrorKind::InvalidInput));
    };
    let Ok(conn) = Connection::open(rt, file) else {
        return Err(fault());
    };
    let Ok(opened) = open_from(conn) else {
        return Err(fault());
    };
    let Ok(mut book) = opened.into_book(rt.alloc()) else {
        return Err(fault());
    };
    let times = load_all(rt, &mut book, count);
    let _ = book.into_store().close();
    let Times { loaded, made } = times?;
    let loaded = loaded.as_micros();
    let made = made.as_micros();
    println!(rt; "load-2000 {count} {loaded} {made}")
}

/// Loads so many batches.
fn load_all<S: Alter>(rt: &HostRuntime, book: &mut TableBook<S>, count: u32) -> io::Result<Times> {
    let mut loaded = Duration::MAX;
    let mut made = Duration::MAX;
    for number in 0..count {
        let start = Instant::now(rt)?;
        let batch = batch_of(rt.alloc(), number)?;
        made = made.min(start.elapsed(rt)?);
        let start = Instant::now(rt)?;
        load(book, batch)?;
        loaded = loaded.min(start.elapsed(rt)?);
    }
    Ok(Times { loaded, made })
}

/// The error that represents every fault.
fn fault() -> io::Error {
    io::Error::from(ErrorKind::Other)
}

/// Loads a batch.
fn load<S: Alter>(book: &mut TableBook<S>, batch: Batch) -> io::Result<()> {
    match book.act(&Command::Load(batch), None) {
        Ok(_) => Ok(()),
        Err(_) => Err(fault()),
    }
}

/// The batch of this number. No other batch has its cells.
fn batch_of(alloc: Global, number: u32) -> io::Result<Batch> {
    let mut rows = Vec::new(alloc);
    for product in 0..PRODUCTS {
        let product = format!(in alloc; "P{product}{number:03}")?;
        for night in FIRST..FIRST + NIGHTS {
            rows.push(row_of(product.as_str(), night)?)?;
        }
    }
    let name = format!(in alloc; "load-{number}")?;
    let Some(name) = Name::parse(name.as_str()) else {
        return Err(fault());
    };
    match Batch::new(alloc, name, rows) {
        Ok(batch) => Ok(batch),
        Err(_) => Err(fault()),
    }
}

/// The row of a product's night.
fn row_of(product: &str, night: u32) -> io::Result<Row> {
    let (Some(supplier), Some(product), Some(night)) = (
        Code::parse("LOAD"),
        Code::parse(product),
        Night::from_day(night),
    ) else {
        return Err(fault());
    };
    let cell = Cell::new(Kind::Flight, supplier, product, night);
    Ok(Row::new(cell, PLACES))
}
