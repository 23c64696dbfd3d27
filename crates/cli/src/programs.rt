//! The jobs of the program, each over its file, from the opening to an orderly end.
ghost use Rattle.std.specs.Prelude.{◌≡◌, ◌≤◌, Option};
ghost use Rattle.std.specs.Io.KnownBytes.{Keeps};
ghost use Rattle.commands.specs.Texts.{refusal_line};
ghost use Rattle.saga_core.specs.Written.{WroteFront};
ghost use Rattle.saga_core.specs.StreamScenes.{ended};
ghost use Rattle.http_sockets.specs.Ends.{is_failed};
ghost use Rattle.program_ends.specs.Ends.{TellsNoneOrFault};
ghost use Rattle.program_jobs.specs.Serving.{CameFrom};
ghost use Rattle.program_jobs.specs.Streams.{streams};
ghost use Rattle.command_line.specs.declared.asking.Socket.{Socket};
ghost use Rattle.command_line.specs.declared.jobs.Job.{Job};
ghost use Rattle.cli.specs.Actions.{IsActionOf};
ghost use Rattle.cli.specs.Doing.{DidAction, DidCall, EndsCall, ExplainsEnd, Performs, TellsEnd, unknown_files};
ghost use Rattle.cli.specs.Explaining.{TellsExplained};
ghost use Rattle.cli.specs.Ends.{HasBadId, ReadsFor, TellsOf};
ghost use Rattle.cli.specs.Listening.{ServesJob};

use crate::actions::{Action, action_of};
use crate::doing::do_at_file;
use crate::hosts::Host;
use command_line::Call;
use commands::Refusal;
use http_live::Turns;
use http_sockets::Sockets;
use program_ends::{End, Ended, ProgramFault};
use sqlite::{File, FileStore};
use sqlite_trees::store::Store;
use std::alloc::{AllocError, Global};
use std::io::{Read, Write, sink};

/// Does a job, prints how it ended, and returns the exit status: 0 done, 1 refused or fault.
///
/// Only a fault is printed on `err`. The log of a desk that serves, where it is asked for, goes to the standard error of
/// the host, by `rt`.
pub fn perform<R: Read, O: Write, E: Write>(
    rt: &HostRuntime,
    alloc: Global,
    call: Call,
    reader: &mut R,
    out: &mut O,
    err: &mut E,
) -> u8
    ensures status { result ≤ 1 }
    ensures read { result ≡ 0 → ReadsFor call.job (R.remaining reader.old) (R.remaining reader.new) }
    ensures told { result ≡ 0 → TellsOf call.job (O.contents out.old) (O.contents out.new) }

    ensures does { Performs ⟦<FileStore<File> as Store>⟧
        (CameFrom ⟦<<Sockets<'static> as Turns>::Reader as Read>⟧
        ⟦<<Sockets<'static> as Turns>::Writer as Write>⟧ ⟦<Sockets<'static> as Turns>⟧ is_failed
        (ServesJob call.job))
        (TellsEnd (E.contents err.old) (E.contents err.new))
        call.job call.socket (R.remaining reader.old) (R.remaining reader.new)
        (O.contents out.old) (O.contents out.new) result }

    ensures quiet { result ≡ 0 → Keeps (E.contents err.old) (E.contents err.new) }
    ensures err { TellsNoneOrFault (E.contents err.old) (E.contents err.new) }

    ensures bad_id { HasBadId call.job →
        (result ≡ 1) × WroteFront (O.contents out.old) (O.contents out.new)
        (ended (refusal_line Refusal.BadBody)) }
{
    let ended = carry_out(rt, alloc, call, reader, out, &mut sink());
    ended.end.tell(alloc, out, err)
}

/// Does the same, and explains it on standard error: notes say how many events an opening recovered, if any, and which
/// field of an allotment file is wrong; and after the line of a fault, or of a refused version or file, another one says why
/// it came, if that is known, and what to do.
pub fn perform_explained<R: Read, O: Write, E: Write>(
    rt: &HostRuntime,
    alloc: Global,
    call: Call,
    reader: &mut R,
    out: &mut O,
    err: &mut E,
) -> u8
    ensures status { result ≤ 1 }
    ensures read { result ≡ 0 → ReadsFor call.job (R.remaining reader.old) (R.remaining reader.new) }
    ensures told { result ≡ 0 → TellsOf call.job (O.contents out.old) (O.contents out.new) }

    ensures does { Performs ⟦<FileStore<File> as Store>⟧
        (CameFrom ⟦<<Sockets<'static> as Turns>::Reader as Read>⟧
        ⟦<<Sockets<'static> as Turns>::Writer as Write>⟧ ⟦<Sockets<'static> as Turns>⟧ is_failed
        (ServesJob call.job))
        (ExplainsEnd (E.contents err.old) (E.contents err.new))
        call.job call.socket (R.remaining reader.old) (R.remaining reader.new)
        (O.contents out.old) (O.contents out.new) result }

    ensures err { TellsExplained (E.contents err.old) (E.contents err.new) }

    ensures bad_id { HasBadId call.job →
        (result ≡ 1) × WroteFront (O.contents out.old) (O.contents out.new)
        (ended (refusal_line Refusal.BadBody)) }
{
    let ended = carry_out(rt, alloc, call, reader, out, err);
    ended.explain(alloc, out, err)
}

/// Does a job, and returns its end.
fn carry_out<R: Read, O: Write, N: Write>(
    rt: &HostRuntime,
    alloc: Global,
    call: Call,
    reader: &mut R,
    out: &mut O,
    notes: &mut N,
) -> Ended
    ensures did { DidCall ⟦<FileStore<File> as Store>⟧
        (CameFrom ⟦<<Sockets<'static> as Turns>::Reader as Read>⟧
        ⟦<<Sockets<'static> as Turns>::Writer as Write>⟧ ⟦<Sockets<'static> as Turns>⟧ is_failed
        (ServesJob call.job))
        call.job call.socket
        (streams (R.remaining reader.old) (R.remaining reader.new) (O.contents out.old)
        (O.contents out.new) (N.contents notes.old) (N.contents notes.new)) result }
    ensures ends { EndsCall call.job
        (streams (R.remaining reader.old) (R.remaining reader.new) (O.contents out.old)
        (O.contents out.new) (N.contents notes.old) (N.contents notes.new)) result }
{
    match action_of(&call) {
        Ok(action) => do_here(rt, alloc, &call, &action, reader, out, notes),
        Err(AllocError) => Ended::from(End::Fault(ProgramFault::Memory)),
    }
}

/// Does what a call asks for, on this host. The sockets are ended once the database is closed.
fn do_here<R: Read, O: Write, N: Write>(
    rt: &HostRuntime,
    alloc: Global,
    call: &Call,
    action: &Action,
    reader: &mut R,
    out: &mut O,
    notes: &mut N,
) -> Ended
    ensures did { DidAction ⟦<FileStore<File> as Store>⟧ unknown_files
        (CameFrom ⟦<<Sockets<'static> as Turns>::Reader as Read>⟧
        ⟦<<Sockets<'static> as Turns>::Writer as Write>⟧ ⟦<Sockets<'static> as Turns>⟧ is_failed
        (ServesJob call.now.job))
        (streams (R.remaining reader.old) (R.remaining reader.new) (O.contents out.old)
        (O.contents out.new) (N.contents notes.old) (N.contents notes.new)) result action.now }
    ensures ends { (job : Job) (socket : Option Socket) → IsActionOf job socket action.now →
        EndsCall job (streams (R.remaining reader.old) (R.remaining reader.new)
        (O.contents out.old) (O.contents out.new) (N.contents notes.old)
        (N.contents notes.new)) result }
{
    let mut host = Host::new(rt, &call.job);
    let ended = do_at_file(rt, alloc, call, action, &mut host, reader, out, notes);
    host.end();
    ended
}
