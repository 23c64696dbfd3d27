//! Batches from files.
ghost use Rattle.std.specs.Prelude.{◌≡◌, Ok, IfOk, IfErr, MatchResult};
ghost use Rattle.allotment_csv.specs.Files.{rows_in, batch_of};
ghost use Rattle.allotment_csv.specs.Fronts.{AreRowsOfBatch};
ghost use Rattle.allotment_csv.specs.Results.{IsTold};

use crate::faults::{CsvFault, in_row};
use crate::fields::has_heading;
use crate::fronts::{read_front, whole};
use crate::records::{next_record, open};
use allotment::Row;
use commands::{Batch, CsvCause, MOST_BYTES, Name};
use csv::ByteRecord;
use std::alloc::Global;

/// The rows of a file, or the first thing that is wrong with it.
fn read_rows(alloc: Global, bytes: &[u8]) -> Result<Vec<Row>, CsvFault>
    ensures read { MatchResult result (λ rows. rows_in bytes.now ≡ Ok rows.items)
        (λ fault. IsTold (rows_in bytes.now) fault) }
    ensures good { IfOk result (λ rows. AreRowsOfBatch rows.items) }
{
    if bytes.len() > MOST_BYTES {
        return Err(in_row(0, CsvCause::Size));
    }
    let mut reader = open(alloc, bytes);
    let mut first = ByteRecord::new(alloc);
    if !next_record(&mut reader, &mut first)? || !has_heading(&first) {
        return Err(in_row(0, CsvCause::Header));
    }
    let front = read_front(alloc, &mut reader)?;
    whole(alloc, front)
}

/// Reads the batch of this name from the bytes of an allotment file, or reports the first thing that is wrong: first
/// with the name, then with the file. The other fault is out of memory.
pub fn read_batch(alloc: Global, name: &str, bytes: &[u8]) -> Result<Batch, CsvFault>
    ensures read { IfOk result (λ batch. batch_of name.now bytes.now ≡ Ok batch) }

    ensures refused { IfErr result (λ fault. IsTold (batch_of name.now bytes.now) fault) }
{
    let Some(name) = Name::parse(name) else {
        return Err(CsvFault::BadBody);
    };
    let rows = read_rows(alloc, bytes)?;
    Ok(Batch::of_rows(name, rows))
}
