//! The field because of which a row of a file is refused, for a user who has to correct it.
ghost use Rattle.std.specs.Prelude.{◌≡◌, IfOk, MatchBool, Option, Some, None, option_map, slice_get};
ghost use Rattle.csv.specs.Records.{fields_of};
ghost use Rattle.allotment_csv.specs.Fields.{texts};
ghost use Rattle.allotment_csv.specs.Reading.{IsReading, records_left};
ghost use Rattle.allotment_csv.specs.WrongFields.{column_name, field_text, first_wrong, wrong_field_in, wrong_fields};

use crate::faults::CsvFault;
use crate::fields::{Fields, fields_in};
use crate::records::{next_record, open};
use crate::rows::places_of;
use allotment::{Code, Kind, Night};
use csv::{ByteRecord, Reader};
use std::alloc::{AllocError, Global};

/// A column of an allotment file.
#[derive(Clone, Copy, Debug, PartialEq, Eq)]
pub enum Column {
    Kind,
    Supplier,
    Product,
    Night,
    Places,
}

impl Column {
    /// The column's name, as it stands in the heading.
    pub fn name(self) -> &'static str
        ensures name { result.now ≡ column_name self }
    {
        match self {
            Column::Kind => "kind",
            Column::Supplier => "supplier",
            Column::Product => "product",
            Column::Night => "night",
            Column::Places => "places",
        }
    }
}

/// A field that is not what its column holds.
#[derive(Debug, Drop)]
pub struct WrongField {
    pub column: Column,
    /// What stands there, of any length and with any characters.
    pub text: String,
}

/// The first of these fields, from the left, that is not what its column holds.
fn wrong_of<'a>(fields: &Fields<'a>) -> Option<(Column, &'a str)>
    ensures { option_map (λ wrong. (wrong.0, wrong.1.now)) result
        ≡ slice_get (wrong_fields (texts fields.now)) 0 }
{
    let Some(_kind) = Kind::from_word(fields.kind) else {
        return Some((Column::Kind, fields.kind));
    };
    let Some(_supplier) = Code::parse(fields.supplier) else {
        return Some((Column::Supplier, fields.supplier));
    };
    let Some(_product) = Code::parse(fields.product) else {
        return Some((Column::Product, fields.product));
    };
    let Ok(_night) = Night::parse(fields.night) else {
        return Some((Column::Night, fields.night));
    };
    let Some(_places) = places_of(fields.places) else {
        return Some((Column::Places, fields.places));
    };
    None
}

/// The first field of the record that is not what its column holds.
fn wrong_in(alloc: Global, record: &ByteRecord) -> Result<Option<WrongField>, AllocError>
    ensures wrong { IfOk result
        (λ wrong. option_map field_text wrong ≡ first_wrong (fields_of record.now)) }
{
    let Some(fields) = fields_in(record) else {
        return Ok(None);
    };
    let Some((column, text)) = wrong_of(&fields) else {
        return Ok(None);
    };
    let text = String::from_str(alloc, text)?;
    Ok(Some(WrongField { column, text }))
}

/// Reads the record after so many others, and returns whether there is one.
fn record_after(
    reader: &mut Reader<&[u8]>,
    passed: usize,
    record: &mut ByteRecord,
) -> Result<bool, CsvFault>
    requires { IsReading reader.old }

    ensures found { IfOk result (λ found. MatchBool found
        (slice_get (records_left reader.old) passed ≡ Some (fields_of record.new))
        (slice_get (records_left reader.old) passed ≡ None)) }
{
    let mut left = passed;
    while left > 0 {
        if !next_record(reader, record)? {
            return Ok(false);
        }
        left -= 1;
    }
    next_record(reader, record)
}

/// The first field, from the left, of a row of an allotment file that is not what its column holds. Rows count from 1.
///
/// Returns `None` if there is no such row, if the row has not five fields of text, or if nothing is wrong with each by
/// itself. The only error is out of memory.
pub fn wrong_field(alloc: Global, bytes: &[u8], row: usize) -> Result<Option<WrongField>, CsvFault>
    ensures wrong { IfOk result
        (λ wrong. option_map field_text wrong ≡ wrong_field_in bytes.now row) }
{
    let mut reader = open(alloc, bytes);
    let mut record = ByteRecord::new(alloc);
    if !record_after(&mut reader, row, &mut record)? {
        return Ok(None);
    }
    Ok(wrong_in(alloc, &record)?)
}
