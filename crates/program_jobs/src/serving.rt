//! Serving who comes, after the recovery of a desk.
ghost use Rattle.std.specs.Prelude.{◌≡◌, OnOk};
ghost use Rattle.std.specs.Io.KnownBytes.{Appends};
ghost use Rattle.saga_core.specs.Written.{WroteFront};
ghost use Rattle.desk_sql.specs.Calls.{Idle};
ghost use Rattle.desk_jobs.specs.Ends.{SendsLine};
ghost use Rattle.desk_jobs.specs.Jobs.{Leaves, LeavesDesk};
ghost use Rattle.program_jobs.specs.Serving.{CameFrom, OpensTo, Serves, ServesDesk, end_of_serving, ready_line};

use crate::environment::Environment;
use commands::Fault;
use desk_jobs::{let_go, note_recovered, ready_over, reopenings, send_line};
use http_live::{Ending, Turns, serve_to_end};
use program_ends::{End, Ended, ProgramFault};
use recovery::{Ready, one_recovery};
use saga_core::{Book, ServeFault};
use sqlite::{Alter, Connection};
use std::alloc::Global;
use std::io::{Read, Write};
use tables::TableBook;

/// Recovers the desk of a connection, and serves who comes until there is a reason to end. Once somebody may come, the line
/// `ready PORT` is printed. Returns the connection, and the end.
pub(crate) fn serve_over<S: Alter + Drop, E: Environment, O: Write, N: Write>(
    alloc: Global,
    conn: Connection<S>,
    port: u16,
    environment: &mut E,
    out: &mut O,
    notes: &mut N,
) -> (Connection<S>, Ended)
    requires idle { Idle conn }

    ensures serves { Serves S.Store
        (CameFrom ⟦<<E::Guests as Turns>::Reader as Read>⟧
        ⟦<<E::Guests as Turns>::Writer as Write>⟧ ⟦<E::Guests as Turns>⟧ E.has_failed
        (E.listens_for environment.old)) port
        conn result.0 (O.contents out.old) (O.contents out.new) (N.contents notes.old)
        (N.contents notes.new) result.1 }
    ensures leaves { Leaves S.Store conn result.0 }
{
    one_recovery();
    reopenings();
    match ready_over(alloc, conn) {
        Ok((desk, made)) => {
            note_recovered(alloc, made, notes);
            serve_ready(alloc, desk, made, port, environment, out)
        }
        Err((conn, end)) => (conn, Ended::from(end)),
    }
}

/// Does the same over a recovered desk. Who was served is then dismissed. Returns the connection of the desk, and the end.
fn serve_ready<S: Alter + Drop, E: Environment, O: Write>(
    alloc: Global,
    desk: Ready<TableBook<S>>,
    made: u64,
    port: u16,
    environment: &mut E,
    out: &mut O,
) -> (Connection<S>, Ended)
    ensures serves { ServesDesk S.Store
        (CameFrom ⟦<<E::Guests as Turns>::Reader as Read>⟧
        ⟦<<E::Guests as Turns>::Writer as Write>⟧ ⟦<E::Guests as Turns>⟧ E.has_failed
        (E.listens_for environment.old)) port
        desk result.0 (O.contents out.old) (O.contents out.new) result.1 }
    ensures leaves { LeavesDesk S.Store desk result.0 }
{
    match environment.listen(alloc, port, made) {
        Ok(guests) => {
            let mut desk = desk;
            let mut guests = guests;
            match open_to_guests(alloc, port, &mut desk, out) {
                Ok(()) => {
                    let served = serve_to_end(alloc, &mut guests, &mut desk);
                    let has_failed = environment.dismiss(guests);
                    let end = end_of_serving(has_failed, served);
                    (let_go(desk), Ended::from(end))
                }
                Err(fault) => {
                    let _ = environment.dismiss(guests);
                    (let_go(desk), Ended::from(End::Fault(fault)))
                }
            }
        }
        Err(ended) => (let_go(desk), ended),
    }
}

/// Counts what the book has, which it then knows, and writes the line that reports that somebody may come.
fn open_to_guests<B: Book, O: Write>(
    alloc: Global,
    port: u16,
    book: &mut B,
    out: &mut O,
) -> Result<(), ProgramFault>
    ensures opens { OpensTo B.is_sound B.stands B.leaves book.old book.new result }
    ensures told { OnOk result (Appends (O.contents out.old) (O.contents out.new)
        (ready_line port)) }
    ensures front { WroteFront (O.contents out.old) (O.contents out.new) (ready_line port) }
{
    if let Err(fault) = book.counts() {
        return Err(ServeFault::from(fault).into());
    }
    match send_ready(alloc, port, out) {
        Ok(()) => Ok(()),
        Err(fault) => Err(fault.into()),
    }
}

/// Writes the line that reports that connections to a port are accepted, and flushes it.
fn send_ready<O: Write>(alloc: Global, port: u16, out: &mut O) -> Result<(), ServeFault>
    ensures sends { SendsLine (O.contents out.old) (O.contents out.new) (ready_line port) result }
{
    send_line(format!(in alloc; "ready {port}\n"), out)
}

/// The end of serving that came to this, where the system failed meanwhile, or did not.
fn end_of_serving(has_failed: bool, served: Result<Ending, Fault>) -> End
    ensures end { result ≡ end_of_serving has_failed served }
{
    match served {
        Ok(Ending::Spent) => End::Fault(ProgramFault::Net),
        Ok(_) if has_failed => End::Fault(ProgramFault::Net),
        Ok(_) => End::Done,
        Err(Fault::Memory) => End::Fault(ProgramFault::Memory),
        Err(Fault::Store) => End::Fault(ProgramFault::Store),
    }
}
