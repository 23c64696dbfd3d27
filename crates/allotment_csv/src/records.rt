//! The records of bytes, one by one.
ghost use Rattle.std.specs.Prelude.{◌≡◌, [], ◌∷◌, IfOk, IfErr, MatchBool};
ghost use Rattle.csv.specs.Records.{fields_of};
ghost use Rattle.allotment_csv.specs.Files.{records_in};
ghost use Rattle.allotment_csv.specs.Reading.{IsReading, records_left};

use crate::faults::CsvFault;
use csv::{ByteRecord, Reader, ReaderBuilder};
use std::alloc::Global;

/// A reader of the records of these bytes.
pub fn open(alloc: Global, bytes: &[u8]) -> Reader<&[u8]>
    ensures reading { IsReading result }
    ensures all { records_left result ≡ records_in bytes.now }
{
    ReaderBuilder::new()
        .has_headers(false)
        .flexible(true)
        .from_reader(alloc, bytes)
}

/// Reads the next record into `record`, and returns whether there was one.
///
/// Since records may differ in length, the only fault is out of memory.
pub fn next_record(reader: &mut Reader<&[u8]>, record: &mut ByteRecord) -> Result<bool, CsvFault>
    requires { IsReading reader.old }

    ensures next { IfOk result (λ found. MatchBool found
        ((records_left reader.old ≡ fields_of record.new ∷ records_left reader.new)
        × IsReading reader.new)
        (records_left reader.old ≡ [])) }
    ensures memory { IfErr result (λ fault. fault ≡ CsvFault.Memory) }
{
    let Ok(found) = reader.read_byte_record(record) else {
        return Err(CsvFault::Memory);
    };
    Ok(found)
}
