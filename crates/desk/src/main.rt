//! The program `desk`. `command_line` reads its words, `cli` does the job, and `program_ends` prints how it ended.
//!
//! Faults are explained where the first word asks for it, or where standard error is a terminal. There, too, a `Watched` reader
//! shows how far a long input was read.
#![tactic(auto)]

use cli::{perform, perform_explained};
use command_line::{Call, Job, call_of};
use program_ends::{End, ProgramFault, Watched, end_of_arguments};
use std::alloc::Global;
use std::env;
use std::io::IsTerminal;
use std::process::ExitCode;

/// The words after the program's name, or the end of the program if they cannot be read.
fn words(rt: &HostRuntime) -> Result<Vec<String>, End> {
    let mut words = Vec::new(rt.alloc());
    let all = match env::args(rt) {
        Ok(all) => all,
        Err(error) => return Err(end_of_arguments(rt.alloc(), error.kind())),
    };
    for word in all.skip(1) {
        if words.push(word).is_err() {
            return Err(End::Fault(ProgramFault::Memory));
        }
    }
    Ok(words)
}

/// Whether who waits at a terminal is shown how many lines of standard input were read: where these are not typed, and where
/// the answers do not show it.
fn is_watched(rt: &HostRuntime, job: &Job) -> bool {
    let is_silent = match job {
        Job::Run { .. } => !rt.stdout().is_terminal(),
        Job::Load { .. } => true,
        _ => false,
    };
    is_silent && rt.stderr().is_terminal() && !rt.stdin().is_terminal()
}

/// Does the job of a call over the standard streams, and returns the exit status.
fn carry_out(rt: &HostRuntime, alloc: Global, call: Call) -> u8 {
    let terminal = is_watched(rt, &call.job).then(|| rt.stderr());
    let mut input = Watched::new(rt, rt.stdin(), terminal);
    let (mut out, mut err) = (rt.stdout(), rt.stderr());
    if call.explains || rt.stderr().is_terminal() {
        perform_explained(rt, alloc, call, &mut input, &mut out, &mut err)
    } else {
        perform(rt, alloc, call, &mut input, &mut out, &mut err)
    }
}

fn main(rt: HostRuntime) -> ExitCode {
    let alloc = rt.alloc();
    let status = match words(&rt) {
        Ok(words) => match call_of(alloc, words) {
            Ok(call) => carry_out(&rt, alloc, call),
            Err(fault) => End::from(fault).tell(alloc, &mut rt.stdout(), &mut rt.stderr()),
        },
        Err(end) => end.tell(alloc, &mut rt.stdout(), &mut rt.stderr()),
    };
    ExitCode::from(status)
}
