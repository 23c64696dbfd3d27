//! The note that an opening recovered events.
ghost use Rattle.std.specs.Prelude.{◌≡◌, IfOk};
ghost use Rattle.std.specs.String.{string_bytes};
ghost use Rattle.saga_core.specs.Written.{WroteFront};
ghost use Rattle.desk_jobs.specs.Notes.{recovered_note, NotesEvents};

use saga_core::send;
use std::alloc::{AllocError, Global};
use std::io::Write;

/// Writes a line that says how many events an opening recovered, if there were any. A failure of that is ignored: a note
/// changes no end.
pub fn note_recovered<N: Write>(alloc: Global, made: u64, notes: &mut N)
    ensures { NotesEvents made (N.contents notes.old) (N.contents notes.new) }
{
    if made != 0 {
        write_note(alloc, made, notes);
    }
}

/// Writes the line itself.
fn write_note<N: Write>(alloc: Global, made: u64, notes: &mut N)
    ensures note { WroteFront (N.contents notes.old) (N.contents notes.new) (recovered_note made) }
{
    if let Ok(line) = note_of(alloc, made) {
        let _ = send(notes, line.as_bytes());
    }
}

/// The line itself.
fn note_of(alloc: Global, made: u64) -> Result<String, AllocError>
    ensures line { IfOk result (λ line. string_bytes line ≡ recovered_note made) }
{
    format!(in alloc; "recovered events (see 'desk history'): {made}\n")
}
