//! What the program was called with: whether a fault is to be explained, the job, and the desk that is asked for it, if one is.
ghost use Rattle.std.specs.Prelude.{◌≡◌, false, map, option_map, true, IfOk, IsOk};
ghost use Rattle.std.specs.String.{string_bytes};
ghost use Rattle.command_line.specs.Asking.{socket_said, words_over};
ghost use Rattle.command_line.specs.Calls.{refuses_call, IsCall};
ghost use Rattle.command_line.specs.Explaining.{asks_to_explain, job_words};
ghost use Rattle.command_line.specs.Jobs.{IsUsage, ReadsWordsOf};

use crate::asking::{Socket, asked_job, socket_in};
use crate::jobs::{Job, JobFault};
use crate::timing::plain_words;
use crate::words::job;
use std::alloc::Global;

/// The word that asks for an explanation of faults.
const EXPLAIN: &str = "--explain";

/// What the program was called with.
#[derive(Drop)]
pub struct Call {
    /// Whether a fault is to be explained.
    pub explains: bool,
    /// The job, over the file that it names.
    pub job: Job,
    /// The socket of the desk that is asked for the report in place of the job's file, if the words name one.
    pub socket: Option<Socket>,
}

/// The call of these words, which follow the program's name: the first of them may ask for an explanation of faults, and the
/// others are those of the job. Errors are the text of a usage, and out of memory.
pub fn call_of(alloc: Global, words: Vec<String>) -> Result<Call, JobFault>
    ensures call { IfOk result (IsCall (map string_bytes words.items)) }

    ensures taken { IsOk result → refuses_call (map string_bytes words.items) ≡ false }
    ensures usage { IsUsage result → refuses_call (map string_bytes words.items) ≡ true }
{
    let mut words = words;
    let explains = take_explain(&mut words);
    let times = plain_words(words.as_mut_slice());
    let socket = socket_in(alloc, words.as_slice())?;
    match job_over(alloc, &socket, words) {
        Ok(job) => Ok(Call {
            explains,
            job: job.timed(times),
            socket,
        }),
        Err(fault) => Err(fault),
    }
}

/// Takes off the first word, if it asks for an explanation, and reports whether it does.
fn take_explain(words: &mut Vec<String>) -> bool
    ensures explains { result ≡ asks_to_explain (map string_bytes words.old.items) }
    ensures words { map string_bytes words.new.items ≡ job_words (map string_bytes words.old.items) }
{
    let explains = match words.first() {
        Some(word) => word.as_str() == EXPLAIN,
        None => false,
    };
    if explains {
        words.remove(0);
    }
    explains
}

/// The job of these words over a file; or of those of a report at a socket, with a file in its place.
fn job_over(alloc: Global, socket: &Option<Socket>, words: Vec<String>) -> Result<Job, JobFault>
    ensures reads { ReadsWordsOf
        (words_over (option_map socket_said socket.now) (map string_bytes words.items)) result }
{
    match socket {
        Some(socket) => asked_job(alloc, socket),
        None => job(alloc, words),
    }
}
