//! How fast an allotment file of 2,000 rows is read as a batch, compared with reading only its records.
use allotment_csv::read_batch;
use csv::{ByteRecord, ReaderBuilder};
use std::alloc::{AllocError, Global};
use std::io::{self, ErrorKind};
use std::time::{Clock, Duration, Instant};

/// How often both are timed. The shortest time of each counts, to reduce the influence of other work on the machine.
const TRIALS: u32 = 50;

/// How many products the file has.
const PRODUCTS: u32 = 80;

/// How many nights each product has, which makes 2,000 rows.
const NIGHTS: u32 = 25;

/// The time to read the batch, and to read only the records.
#[derive(Clone, Copy)]
struct Times {
    batch: Duration,
    records: Duration,
}

/// Prints both times, in microseconds, and their ratio.
pub(crate) fn compare(rt: &(impl Clock + Print + AllocGlobal)) -> io::Result<()> {
    let file = file(rt.alloc())?;
    let mut shortest = measure(rt, file.as_bytes())?;
    for _ in 1..TRIALS {
        let next = measure(rt, file.as_bytes())?;
        shortest = Times {
            batch: shortest.batch.min(next.batch),
            records: shortest.records.min(next.records),
        };
    }
    let bytes = file.len();
    let batch = shortest.batch.as_secs_f64() * 1e6;
    let records = shortest.records.as_secs_f64() * 1e6;
    let ratio = batch / records;
    println!(rt; "rows bytes batch records ratio at-most")?;
    println!(rt; "2000 {bytes} {batch:.1} {records:.1} {ratio:.2} 3.0")
}

/// The file. Each row has its own cell.
fn file(alloc: Global) -> Result<String, AllocError> {
    let mut file = String::from_str(alloc, "kind,supplier,product,night,places\n")?;
    for product in 0..PRODUCTS {
        for night in 1..=NIGHTS {
            let row = format!(in alloc; "room,SUPPLIER,P{product:03},2030-06-{night:02},100000\n")?;
            file.push_str(row.as_str())?;
        }
    }
    Ok(file)
}

/// The times of one trial. The counts are compared, so that no work can be optimized away.
fn measure(rt: &(impl Clock + AllocGlobal), file: &[u8]) -> io::Result<Times> {
    let start = Instant::now(rt)?;
    let rows = count_rows(rt.alloc(), file)?;
    let batch = start.elapsed(rt)?;
    let start = Instant::now(rt)?;
    let records = count_records(rt.alloc(), file)?;
    let plain = start.elapsed(rt)?;
    // the heading is a record too
    if records == rows.wrapping_add(1) {
        Ok(Times {
            batch,
            records: plain,
        })
    } else {
        Err(io::Error::from(ErrorKind::InvalidData))
    }
}

/// Reads the file as a batch, and returns how many rows it has.
fn count_rows(alloc: Global, file: &[u8]) -> io::Result<usize> {
    match read_batch(alloc, "bench", file) {
        Ok(batch) => Ok(batch.rows().len()),
        Err(_) => Err(io::Error::from(ErrorKind::InvalidData)),
    }
}

/// Reads the records of the file, and returns how many have five fields.
fn count_records(alloc: Global, file: &[u8]) -> io::Result<usize> {
    let mut reader = ReaderBuilder::new()
        .has_headers(false)
        .flexible(true)
        .from_reader(alloc, file);
    let mut record = ByteRecord::new(alloc);
    let mut records = 0usize;
    for _ in 0..=PRODUCTS.wrapping_mul(NIGHTS) {
        match reader.read_byte_record(&mut record) {
            Ok(true) if record.len() == 5 => records = records.wrapping_add(1),
            _ => return Err(io::Error::from(ErrorKind::InvalidData)),
        }
    }
    Ok(records)
}
