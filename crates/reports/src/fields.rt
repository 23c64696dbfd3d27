//! The fields of a record of CSV, and the text of the record (RFC 4180).
ghost use Rattle.std.specs.Prelude.{◌≡◌, [], ◌∷◌, ◌++◌, ℕ, List, decimal, IfOk};
ghost use Rattle.csv.specs.Records.{fields_of, partial_of};
ghost use Rattle.reports.specs.Records.{csv_line};

use csv::{ByteRecord, Terminator, WriterBuilder};
use std::alloc::{AllocError, Global};
use std::marker::Model;

/// The fields of a record, none of which is half written.
#[derive(Drop)]
pub struct Fields {
    row: ByteRecord,
}

impl Model for Fields {
    ghost Value = { List (List ℕ) };

    ghost view = { λ fields. fields_of fields.row };

    ghost invariant = { λ fields. partial_of fields.row ≡ [] };
}

impl Fields {
    /// No field.
    pub fn new(alloc: Global) -> Fields
        ensures none { result ≡ [] }
    {
        Fields {
            row: ByteRecord::new(alloc),
        }
    }

    /// These fields, and a number in decimal digits.
    pub fn with_number(self, alloc: Global, number: u64) -> Result<Fields, AllocError>
        ensures adds { IfOk result (λ fields. fields ≡ self ++ decimal number ∷ []) }
    {
        let digits = format!(in alloc; "{number}")?;
        self.with(digits.as_str())
    }

    /// These fields, and one more.
    pub fn with(self, field: &str) -> Result<Fields, AllocError>
        ensures adds { IfOk result (λ fields. fields ≡ self ++ field.now ∷ []) }
    {
        let Fields { mut row } = self;
        row.push_field(field.as_bytes())?;
        Ok(Fields { row })
    }

    /// The text of the record, as RFC 4180 writes it, with its line end.
    pub fn line(&self, alloc: Global) -> Result<Vec<u8>, AllocError>
        ensures line { IfOk result (λ text. text.items ≡ csv_line self.now) }
    {
        let mut writer = WriterBuilder::new()
            .terminator(Terminator::CRLF)
            .from_writer(Vec::new(alloc));
        // Writing to a list in memory fails only if it is out of memory.
        if writer.write_byte_record(&self.row).is_err() {
            return Err(AllocError);
        }
        match writer.into_inner() {
            Ok(text) => Ok(text),
            Err(_) => Err(AllocError),
        }
    }
}
