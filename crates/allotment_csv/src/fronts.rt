//! The prefix of a file's rows up to the first record that is none, and its result.
ghost use Rattle.std.specs.Prelude.{◌≡◌, Ok, IfOk, IfErr, MatchResult, List, ℕ};
ghost use Rattle.allotment.specs.Making.{first_fault};
ghost use Rattle.allotment_csv.specs.Files.{rows_of, rows_faults};
ghost use Rattle.allotment_csv.specs.Fronts.{AreRowsOfBatch, IsFront};
ghost use Rattle.allotment_csv.specs.Reading.{IsReading, records_left};
ghost use Rattle.allotment_csv.specs.Results.{IsTold};

use crate::faults::{CsvFault, in_row};
use crate::records::next_record;
use crate::rows::row_in;
use allotment::Row;
use commands::{CsvCause, MOST_ROWS, first_repeat};
use csv::{ByteRecord, Reader};
use std::alloc::Global;

/// The rows up to the first record that is none, and what is wrong with that one by itself.
#[derive(Drop)]
pub struct Front {
    pub rows: Vec<Row>,
    pub wrong: Option<CsvCause>,
}

/// Reads the rows of the records that the reader has left, up to the first record that is none. The only fault is out
/// of memory.
pub fn read_front(alloc: Global, reader: &mut Reader<&[u8]>) -> Result<Front, CsvFault>
    requires { IsReading reader.old }

    ensures front { IfOk result
        (λ front. IsFront (records_left reader.old) front.rows.items front.wrong) }
    ensures memory { IfErr result (λ fault. fault ≡ CsvFault.Memory) }
{
    let mut rows = Vec::new(alloc);
    let mut record = ByteRecord::new(alloc);
    while rows.len() < MOST_ROWS {
        if !next_record(reader, &mut record)? {
            return Ok(Front { rows, wrong: None });
        }
        match row_in(&record) {
            Ok(row) => rows.push(row)?,
            Err(cause) => {
                return Ok(Front {
                    rows,
                    wrong: Some(cause),
                });
            }
        }
    }
    let wrong = if next_record(reader, &mut record)? {
        Some(CsvCause::Many)
    } else {
        None
    };
    Ok(Front { rows, wrong })
}

/// The rows of a prefix that is the whole file, or the first thing that is wrong.
pub fn whole(alloc: Global, front: Front) -> Result<Vec<Row>, CsvFault>
    ensures whole { (all : List (List (List ℕ))) → IsFront all front.rows.items front.wrong
        → MatchResult result
        (λ rows. first_fault (rows_of all) (rows_faults all) ≡ Ok rows.items)
        (λ fault. IsTold (first_fault (rows_of all) (rows_faults all)) fault) }
    ensures good { (all : List (List (List ℕ))) → IsFront all front.rows.items front.wrong
        → IfOk result (λ rows. AreRowsOfBatch rows.items) }
{
    if let Some(place) = first_repeat(alloc, &front.rows)? {
        return Err(in_row(place + 1, CsvCause::Twice));
    }
    match front.wrong {
        Some(cause) => Err(in_row(front.rows.len() + 1, cause)),
        None if front.rows.is_empty() => Err(in_row(0, CsvCause::Empty)),
        None => Ok(front.rows),
    }
}
