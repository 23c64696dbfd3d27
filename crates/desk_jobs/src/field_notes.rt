//! The note of the field because of which a load was refused.
ghost use Rattle.std.specs.Prelude.{◌≡◌, IfOk, map, take};
ghost use Rattle.allotment_csv.specs.WrongFields.{field_text};
ghost use Rattle.saga_core.specs.Written.{WroteFront};
ghost use Rattle.desk_jobs.specs.Notes.{field_note, is_of_field, refused_field, refused_row, shown_byte, shown_text, NotesField};

use allotment_csv::{WrongField, wrong_field};
use commands::{CsvCause, Refusal};
use program_ends::End;
use saga_core::send;
use std::alloc::{AllocError, Global};
use std::io::Write;

/// Whether the fault is of one field of a row.
fn is_of_field(cause: CsvCause) -> bool
    ensures is { result ≡ is_of_field cause }
{
    match cause {
        CsvCause::Kind | CsvCause::Code | CsvCause::Night | CsvCause::Places => true,
        _ => false,
    }
}

/// The row that was refused because of one of its fields, counted from 1.
fn refused_row(end: &End) -> Option<usize>
    ensures row { result ≡ refused_row end.now }
{
    match end {
        End::Refused(Refusal::BadCsv { row, cause }) if is_of_field(*cause) => Some(*row),
        _ => None,
    }
}

/// A byte as it is shown: printable ASCII as itself, all others as `?`, so that no file writes commands to a terminal.
fn shown_byte(byte: u8) -> u8
    ensures shown { result ≡ shown_byte byte }
{
    if 32 <= byte && byte <= 126 {
        byte
    } else {
        b'?'
    }
}

/// The first 60 bytes of a text, as they are shown.
fn shown_text(alloc: Global, text: &[u8]) -> Result<Vec<u8>, AllocError>
    ensures shown { IfOk result (λ shown. shown.items ≡ shown_text text.now) }
{
    text.iter()
        .take(60)
        .map(|byte| shown_byte(*byte))
        .collect(alloc)
}

/// The line of a wrong field.
fn note_of(alloc: Global, row: usize, field: &WrongField) -> Result<Vec<u8>, AllocError>
    ensures line { IfOk result (λ line. line.items ≡ field_note row (field_text field.now)) }
{
    let head = format!(in alloc; "row {row}, {}: ", field.column.name())?;
    let shown = shown_text(alloc, field.text.as_bytes())?;
    let mut line = Vec::new(alloc);
    line.extend_from_slice(head.as_bytes())?;
    line.extend_from_slice(shown.as_slice())?;
    line.push(b'\n')?;
    Ok(line)
}

/// Writes the line of a wrong field.
fn write_note<N: Write>(alloc: Global, row: usize, field: &WrongField, notes: &mut N)
    ensures note { WroteFront (N.contents notes.old) (N.contents notes.new)
        (field_note row (field_text field.now)) }
{
    if let Ok(line) = note_of(alloc, row, field) {
        let _ = send(notes, line.as_slice());
    }
}

/// If a load of these bytes was refused because of one field of a row, writes a line with the row, the column, and what
/// stands there. A failure of that is ignored: a note changes no end.
pub fn note_wrong_field<N: Write>(alloc: Global, bytes: &[u8], end: &End, notes: &mut N)
    ensures note { NotesField (refused_field bytes.now end.now) (N.contents notes.old)
        (N.contents notes.new) }
{
    let Some(row) = refused_row(end) else { return };
    if let Ok(Some(field)) = wrong_field(alloc, bytes, row) {
        write_note(alloc, row, &field, notes);
    }
}
