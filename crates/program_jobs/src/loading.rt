//! Loads of allotment files, each after the recovery of its desk.
ghost use Rattle.std.specs.Prelude.{◌≢◌, ◌≡◌, IfErr, IfOk};
ghost use Rattle.desk_sql.specs.Calls.{Idle};
ghost use Rattle.desk_jobs.specs.Jobs.{Leaves};
ghost use Rattle.program_jobs.specs.Loads.{Loads};
ghost use Rattle.program_jobs.specs.Sources.{ArePrefixOf, AreReadFrom, IsFaultOfInput, IsFaultOfSource};
ghost use Rattle.program_jobs.specs.Streams.{streams};

use crate::environment::Environment;
use crate::tasks::Source;
use commands::MOST_BYTES;
use desk_jobs::{let_go, load_over, note_recovered, note_wrong_field, ready_over, reopenings};
use program_ends::{End, ProgramFault};
use recovery::one_recovery;
use sqlite::{Alter, Connection};
use std::alloc::Global;
use std::io::{ErrorKind, Read, Write};

/// The most bytes that are read of an allotment file: one more than it may have.
const MOST_READ: u64 = MOST_BYTES as u64 + 1;

/// Recovers the desk of a connection, reads an allotment file, and loads it as a batch of this name. Returns the connection,
/// and the end. Notes say how many events were recovered, if any, and which field a row was refused for.
pub(crate) fn load_from<S: Alter + Drop, E: Environment, R: Read, O: Write, N: Write>(
    alloc: Global,
    conn: Connection<S>,
    source: &Source,
    batch: &str,
    environment: &mut E,
    reader: &mut R,
    out: &mut O,
    notes: &mut N,
) -> (Connection<S>, End)
    requires idle { Idle conn }

    ensures loads { Loads S.Store conn result.0
        (streams (R.remaining reader.old) (R.remaining reader.new) (O.contents out.old)
        (O.contents out.new) (N.contents notes.old) (N.contents notes.new))
        (E.bytes_of environment.old) source.now batch.now result.1 }
    ensures leaves { Leaves S.Store conn result.0 }
{
    one_recovery();
    reopenings();
    match ready_over(alloc, conn) {
        Ok((desk, made)) => {
            note_recovered(alloc, made, notes);
            match read_source(alloc, source, environment, reader) {
                Ok(bytes) => {
                    let bytes = bytes.as_slice();
                    let (conn, end) = load_over(alloc, desk, batch, bytes, out);
                    note_wrong_field(alloc, bytes, &end, notes);
                    (conn, end)
                }
                Err(fault) => (let_go(desk), End::Fault(fault)),
            }
        }
        Err((conn, end)) => (conn, end),
    }
}

/// The bytes of an allotment file, at most one more than it may have.
fn read_source<E: Environment, R: Read>(
    alloc: Global,
    source: &Source,
    environment: &mut E,
    reader: &mut R,
) -> Result<Vec<u8>, ProgramFault>
    ensures bytes { IfOk result (λ bytes.
        AreReadFrom (E.bytes_of environment.old) (R.remaining reader.old) source.now bytes.items) }
    ensures unread { source.now ≢ Source.Input → R.remaining reader.new ≡ R.remaining reader.old }
    ensures fault { IfErr result (IsFaultOfSource source.now) }
{
    match source {
        Source::Input => read_input(alloc, reader),
        Source::File(name) => environment.read_file(alloc, name.as_str(), MOST_READ),
    }
}

/// The bytes of the reader, at most one more than an allotment file may have.
fn read_input<R: Read>(alloc: Global, reader: &mut R) -> Result<Vec<u8>, ProgramFault>
    ensures bytes { IfOk result (λ bytes.
        ArePrefixOf MOST_READ (R.remaining reader.old) bytes.items) }
    ensures fault { IfErr result IsFaultOfInput }
{
    let mut bytes = Vec::new(alloc);
    match (&mut *reader).take(MOST_READ).read_to_end(&mut bytes) {
        Ok(_) => Ok(bytes),
        Err(error) if error.kind() == ErrorKind::OutOfMemory => Err(ProgramFault::Memory),
        Err(_) => Err(ProgramFault::Read),
    }
}
