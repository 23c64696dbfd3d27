//! The row of a record.
ghost use Rattle.std.specs.Prelude.{◌≡◌, ◌≤◌, [], Some, IfSome, MatchResult};
ghost use Rattle.csv.specs.Records.{fields_of};
ghost use Rattle.allotment.specs.Limits.{most_places};
ghost use Rattle.allotment.specs.Texts.{places_in};
ghost use Rattle.allotment_csv.specs.Fields.{texts};
ghost use Rattle.allotment_csv.specs.Rows.{field_causes, record_causes, row_of_record};
ghost use Rattle.allotment_csv.specs.Results.{IsFirst};

use crate::fields::{Fields, fields_in};
use allotment::{Cell, Code, Kind, MOST_PLACES, Night, Row};
use commands::{CsvCause, number_between};
use csv::ByteRecord;

/// The places that a text spells, 0 to 100,000.
pub fn places_of(text: &str) -> Option<u32>
    ensures places { result ≡ places_in text.now }
    ensures limit { IfSome result (λ places. places ≤ most_places) }
{
    let places = number_between(text, 0, MOST_PLACES as usize)?;
    Some(places as u32)
}

/// The row of these fields, or the cause of the first of them, from the left, that is not what its column holds.
fn row_of(fields: &Fields<'_>) -> Result<Row, CsvCause>
    ensures { MatchResult result
        (λ row. (field_causes (texts fields.now) ≡ [])
        × (row_of_record (texts fields.now) ≡ Some row))
        (λ cause. IsFirst cause (field_causes (texts fields.now))) }
{
    let Some(kind) = Kind::from_word(fields.kind) else {
        return Err(CsvCause::Kind);
    };
    let Some(supplier) = Code::parse(fields.supplier) else {
        return Err(CsvCause::Code);
    };
    let Some(product) = Code::parse(fields.product) else {
        return Err(CsvCause::Code);
    };
    let Ok(night) = Night::parse(fields.night) else {
        return Err(CsvCause::Night);
    };
    let Some(places) = places_of(fields.places) else {
        return Err(CsvCause::Places);
    };
    Ok(Row::new(Cell::new(kind, supplier, product, night), places))
}

/// The row of the record, or the first thing that is wrong with it by itself.
pub fn row_in(record: &ByteRecord) -> Result<Row, CsvCause>
    ensures { MatchResult result
        (λ row. (record_causes (fields_of record.now) ≡ [])
        × (row_of_record (fields_of record.now) ≡ Some row))
        (λ cause. IsFirst cause (record_causes (fields_of record.now))) }
{
    match fields_in(record) {
        Some(fields) => row_of(&fields),
        None => Err(CsvCause::Shape),
    }
}
