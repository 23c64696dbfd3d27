//! The five fields of a record.
ghost use Rattle.std.specs.Prelude.{◌≡◌, ◌↔◌, IsTrue, option_map};
ghost use Rattle.std.specs.Str.{IsAscii};
ghost use Rattle.allotment.specs.Texts.{keep_if};
ghost use Rattle.csv.specs.Records.{fields_of, text_of};
ghost use Rattle.allotment_csv.specs.Rows.{has_shape, is_heading};
ghost use Rattle.allotment_csv.specs.Fields.{texts, text_at, is_at};

use csv::ByteRecord;

/// The fields of a record that has five, each of them text.
#[derive(Clone, Copy)]
pub struct Fields<'a> {
    pub kind: &'a str,
    pub supplier: &'a str,
    pub product: &'a str,
    pub night: &'a str,
    pub places: &'a str,
}

/// Whether each byte of the record is ASCII, and so each field text.
fn is_ascii(record: &ByteRecord) -> bool
    ensures ascii { IsTrue result ↔ IsAscii (text_of record.now) }
{
    record.as_slice().is_ascii()
}

/// The field at this index, if it is there and is UTF-8. If the record is known to be ASCII, no byte is checked.
fn field_in(record: &ByteRecord, place: usize, ascii: bool) -> Option<&str>
    requires { IsTrue ascii → IsAscii (text_of record.now) }
    ensures { option_map (λ text. text.now) result ≡ text_at (fields_of record.now) place }
{
    let field = record.get(place)?;
    if ascii {
        return Some(unsafe { str::from_utf8_unchecked(field) });
    }
    match str::from_utf8(field) {
        Ok(text) => Some(text),
        Err(_) => None,
    }
}

/// The fields of the record. Returns `None` if there are not five, or if one is not UTF-8.
pub fn fields_in(record: &ByteRecord) -> Option<Fields<'_>>
    ensures { option_map texts result ≡ keep_if has_shape (fields_of record.now) }
{
    if record.len() != 5 {
        return None;
    }
    let ascii = is_ascii(record);
    let kind = field_in(record, 0, ascii)?;
    let supplier = field_in(record, 1, ascii)?;
    let product = field_in(record, 2, ascii)?;
    let night = field_in(record, 3, ascii)?;
    let places = field_in(record, 4, ascii)?;
    Some(Fields {
        kind,
        supplier,
        product,
        night,
        places,
    })
}

/// Whether the field at this place is this word.
fn is_word(record: &ByteRecord, place: usize, word: &[u8]) -> bool
    ensures { result ≡ is_at (fields_of record.now) place word.now }
{
    match record.get(place) {
        Some(field) => field == word,
        None => false,
    }
}

/// Whether the record is the heading of a file.
#[tactic(auto, using(crate::proofs::FieldLemmas::not_heading, crate::proofs::FieldLemmas::heading_words))]
pub fn has_heading(record: &ByteRecord) -> bool
    ensures { result ≡ is_heading (fields_of record.now) }
{
    if record.len() != 5 {
        return false;
    }
    if !is_word(record, 0, b"kind") || !is_word(record, 1, b"supplier") {
        return false;
    }
    if !is_word(record, 2, b"product") || !is_word(record, 3, b"night") {
        return false;
    }
    is_word(record, 4, b"places")
}
