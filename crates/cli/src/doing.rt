//! What a call asks for, done over a file or without one.
ghost use Rattle.std.specs.Prelude.{◌≢◌, Option};
ghost use Rattle.std.specs.Io.KnownBytes.{Appends, Keeps};
ghost use Rattle.sqlite_wal.specs.Files.{image_at};
ghost use Rattle.command_line.specs.Version.{version_line as line_of_version};
ghost use Rattle.command_line.specs.declared.asking.Socket.{Socket};
ghost use Rattle.command_line.specs.declared.jobs.Job.{Job};
ghost use Rattle.program_ends.specs.Ends.{EndsJob, IfDone};
ghost use Rattle.program_jobs.specs.Serving.{CameFrom};
ghost use Rattle.program_jobs.specs.Streams.{streams};
ghost use Rattle.cli.specs.Actions.{IsActionOf};
ghost use Rattle.cli.specs.Doing.{DidAction, EndsCall, RanAction};

use crate::actions::{Action, file_of};
use crate::asking::asked_report;
use command_line::{Call, Socket, version_line};
use commands::Refusal;
use http_live::Turns;
use program_ends::{End, Ended, Left, ProgramFault};
use program_jobs::{Environment, do_over_file};
use saga_core::send;
use sqlite::{File, FileFrom, FileStore, Start, Unknown};
use sqlite_trees::store::Store;
use std::alloc::Global;
use std::io::{Read, Write};

/// Does what a call asks for, over a file that held what `S` says. Returns the end, and what is left of the files of a task.
pub fn do_action<S: Start, E: Environment, R: Read, O: Write, N: Write>(
    rt: &HostRuntime,
    alloc: Global,
    call: &Call,
    action: &Action,
    start: S,
    environment: &mut E,
    reader: &mut R,
    out: &mut O,
    notes: &mut N,
) -> (Ended, Option<Left<FileFrom<S>>>)
    ensures did { DidAction ⟦<FileStore<FileFrom<S>> as Store>⟧ (E.bytes_of environment.old)
        (CameFrom ⟦<<E::Guests as Turns>::Reader as Read>⟧
        ⟦<<E::Guests as Turns>::Writer as Write>⟧ ⟦<E::Guests as Turns>⟧ E.has_failed
        (E.listens_for environment.old))
        (streams (R.remaining reader.old) (R.remaining reader.new) (O.contents out.old)
        (O.contents out.new) (N.contents notes.old) (N.contents notes.new)) result.0 action.now }
    ensures ran { RanAction (image_at S.Start) (E.bytes_of environment.old)
        (CameFrom ⟦<<E::Guests as Turns>::Reader as Read>⟧
        ⟦<<E::Guests as Turns>::Writer as Write>⟧ ⟦<E::Guests as Turns>⟧ E.has_failed
        (E.listens_for environment.old))
        (streams (R.remaining reader.old) (R.remaining reader.new) (O.contents out.old)
        (O.contents out.new) (N.contents notes.old) (N.contents notes.new)) action.now result.1 }
{
    match action {
        Action::Do(task) => {
            let file = file_of(&call.job);
            let (ended, left) = do_over_file(
                rt,
                alloc,
                file,
                start,
                task,
                environment,
                reader,
                out,
                notes,
            );
            (ended, Some(left))
        }
        Action::Ask => (ask(rt, alloc, &call.socket, out), None),
        Action::Refuse => (Ended::from(End::Refused(Refusal::BadBody)), None),
        Action::ShowVersion => (Ended::from(show_version(out)), None),
    }
}

/// Does the same over a file of any contents. Whatever the job is for which that is done, its end says what it promises.
pub(crate) fn do_at_file<E: Environment, R: Read, O: Write, N: Write>(
    rt: &HostRuntime,
    alloc: Global,
    call: &Call,
    action: &Action,
    environment: &mut E,
    reader: &mut R,
    out: &mut O,
    notes: &mut N,
) -> Ended
    ensures did { DidAction ⟦<FileStore<File> as Store>⟧ (E.bytes_of environment.old)
        (CameFrom ⟦<<E::Guests as Turns>::Reader as Read>⟧
        ⟦<<E::Guests as Turns>::Writer as Write>⟧ ⟦<E::Guests as Turns>⟧ E.has_failed
        (E.listens_for environment.old))
        (streams (R.remaining reader.old) (R.remaining reader.new) (O.contents out.old)
        (O.contents out.new) (N.contents notes.old) (N.contents notes.new)) result action.now }
    ensures ends { (job : Job) (socket : Option Socket) → IsActionOf job socket action.now →
        EndsCall job (streams (R.remaining reader.old) (R.remaining reader.new)
        (O.contents out.old) (O.contents out.new) (N.contents notes.old)
        (N.contents notes.new)) result }
{
    let (ended, _left) = do_action(
        rt,
        alloc,
        call,
        action,
        Unknown,
        environment,
        reader,
        out,
        notes,
    );
    ended
}

/// Prints the report of the desk at a socket.
fn ask<O: Write>(rt: &HostRuntime, alloc: Global, socket: &Option<Socket>, out: &mut O) -> Ended
    ensures job { EndsJob result.end }
    ensures untold { result.end ≢ End.Done → result.end ≢ End.Fault ProgramFault.Write →
        Keeps (O.contents out.old) (O.contents out.new) }
{
    match socket {
        Some(socket) => asked_report(rt, alloc, socket, out),
        None => Ended::from(End::Refused(Refusal::BadBody)),
    }
}

/// Prints the version of the program.
fn show_version<O: Write>(out: &mut O) -> End
    ensures job { EndsJob result }
    ensures told { IfDone result
        (Appends (O.contents out.old) (O.contents out.new) line_of_version) }
{
    match send(out, version_line().as_bytes()) {
        Ok(()) => End::Done,
        Err(_) => End::Fault(ProgramFault::Write),
    }
}
