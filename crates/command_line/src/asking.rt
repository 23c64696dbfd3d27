//! The report of which a desk is asked that serves at a Unix socket.
//!
//! Where `--at PATH` stands among the words of a report, no file is read: the other words are those of the report, without a
//! file. They are read as if a word for the file stood after the report's name.
ghost use Rattle.std.specs.Prelude.{◌≡◌, ◌++◌, ◌≤◌, false, length, map, option_map, position, true, IfOk, IsOk, OnOk};
ghost use Rattle.std.specs.String.{string_bytes};
ghost use Rattle.command_line.specs.Asking.{before_mark, is_mark, name_report, over_file, socket_after, socket_at, socket_in, socket_said};
ghost use Rattle.command_line.specs.Jobs.{are_refused, IsJob, IsText, IsUsage, ReadsWordsOf};

use crate::jobs::{Job, JobFault};
use crate::subcommands::Subcommand;
use crate::timing::NO_MORE_OPTIONS;
use crate::words::job;
use std::alloc::{AllocError, Global};

/// The option that names a socket, and how it begins where the path is in the same word.
const AT: &str = "--at";

const AT_START: &str = "--at=";

/// The word that stands for the file where the words of a report without one are read.
const STAND_IN: &str = "FILE";

/// A socket that the words of a report name.
#[derive(Drop)]
pub struct Socket {
    pub path: String,
    /// The other words: the report's name, and what follows it.
    pub words: Vec<String>,
}

/// The socket that the words of the command line name, if they do: `--at PATH` or `--at=PATH` after the name of a report, at
/// any place before `--`.
pub(crate) fn socket_in(alloc: Global, words: &[String]) -> Result<Option<Socket>, AllocError>
    ensures socket { IfOk result (λ found.
        option_map socket_said found ≡ socket_in (map string_bytes words.now)) }
{
    if !name_report(words) {
        return Ok(None);
    }
    let (before, from) = words.split_at(before_mark(words));
    socket_at(alloc, before, from)
}

/// Whether the first of the words names a report.
fn name_report(words: &[String]) -> bool
    ensures report { result ≡ name_report (map string_bytes words.now) }
{
    let Some(name) = words.first() else {
        return false;
    };
    match Subcommand::named(name.as_str()) {
        Some(subcommand) => subcommand.is_report(),
        None => false,
    }
}

/// How many words stand before the first that ends the options or names a socket, or all.
fn before_mark(words: &[String]) -> usize
    ensures count { result ≡ before_mark (map string_bytes words.now) }
    ensures within { result ≤ length words.now }
{
    match first_mark(words) {
        Some(place) => place,
        None => words.len(),
    }
}

/// Where the first word stands that ends the options or names a socket.
fn first_mark(words: &[String]) -> Option<usize>
    ensures place { result ≡ position (λ word. is_mark (string_bytes word)) words.now }
{
    words.iter().position(|word| is_mark(word.as_str()))
}

/// Whether a word ends the options or names a socket.
fn is_mark(word: &str) -> bool
    ensures mark { result ≡ is_mark word.now }
{
    word == NO_MORE_OPTIONS || word == AT || word.starts_with(AT_START)
}

/// The socket that the first of these words names, if it does.
fn socket_at(
    alloc: Global,
    before: &[String],
    words: &[String],
) -> Result<Option<Socket>, AllocError>
    ensures socket { IfOk result (λ found. option_map socket_said found
        ≡ socket_at (map string_bytes before.now) (map string_bytes words.now)) }
{
    let Some((word, after)) = words.split_first() else {
        return Ok(None);
    };
    if word.as_str() == AT {
        return socket_after(alloc, before, after);
    }
    match word.as_str().strip_prefix(AT_START) {
        Some(path) => Ok(Some(named(alloc, path, before, after)?)),
        None => Ok(None),
    }
}

/// The socket whose path is the word after the option, unless that looks like an option itself.
fn socket_after(
    alloc: Global,
    before: &[String],
    words: &[String],
) -> Result<Option<Socket>, AllocError>
    ensures socket { IfOk result (λ found. option_map socket_said found
        ≡ socket_after (map string_bytes before.now) (map string_bytes words.now)) }
{
    let Some((path, after)) = words.split_first() else {
        return Ok(None);
    };
    if path.as_str().starts_with("-") {
        return Ok(None);
    }
    Ok(Some(named(alloc, path.as_str(), before, after)?))
}

/// The socket of this path, with the words before and after those that name it.
fn named(
    alloc: Global,
    path: &str,
    before: &[String],
    after: &[String],
) -> Result<Socket, AllocError>
    ensures socket { IfOk result (λ socket. socket_said socket
        ≡ record { path = path.now; words = map string_bytes before.now ++ map string_bytes after.now }) }
{
    let path = String::from_str(alloc, path)?;
    let mut words = Vec::new(alloc);
    push_all(&mut words, before)?;
    push_all(&mut words, after)?;
    Ok(Socket { path, words })
}

/// Adds copies of words to a list.
fn push_all(list: &mut Vec<String>, words: &[String]) -> Result<(), AllocError>
    ensures added { OnOk result (map string_bytes list.new.items
        ≡ map string_bytes list.old.items ++ map string_bytes words.now) }
{
    for word in words {
        let copy = word.clone()?;
        list.push(copy)?;
    }
    Ok(())
}

/// The job of the words of a report at a socket, over a file in its place.
pub(crate) fn asked_job(alloc: Global, socket: &Socket) -> Result<Job, JobFault>
    ensures reads { ReadsWordsOf (over_file (map string_bytes socket.now.words.items)) result }
{
    match report_job(alloc, socket.words.as_slice()) {
        Ok(job) => Ok(job),
        Err(fault) => Err(with_note(alloc, fault)),
    }
}

/// The job of the words of a report without a file, over a file. Errors are the text of a usage, and out of memory.
pub fn report_job(alloc: Global, words: &[String]) -> Result<Job, JobFault>
    ensures job { IfOk result (IsJob (over_file (map string_bytes words.now))) }

    ensures taken { IsOk result → are_refused (over_file (map string_bytes words.now)) ≡ false }
    ensures usage { IsUsage result → are_refused (over_file (map string_bytes words.now)) ≡ true }
{
    match over_file(alloc, words) {
        Ok(words) => job(alloc, words),
        Err(_) => Err(JobFault::Memory),
    }
}

/// The words of a report over a file.
fn over_file(alloc: Global, words: &[String]) -> Result<Vec<String>, AllocError>
    ensures words { IfOk result (λ all.
        map string_bytes all.items ≡ over_file (map string_bytes words.now)) }
{
    let mut all = Vec::new(alloc);
    let Some((name, others)) = words.split_first() else {
        return Ok(all);
    };
    all.push(name.clone()?)?;
    all.push(String::from_str(alloc, STAND_IN)?)?;
    push_all(&mut all, others)?;
    Ok(all)
}

/// A fault of words that name a socket. An error of the words has a line more, since the usage of the report shows a file.
fn with_note(alloc: Global, fault: JobFault) -> JobFault
    ensures usage { IsText result → IsText fault }
{
    let JobFault::Usage(text) = fault else {
        return JobFault::Memory;
    };
    if !text.as_str().starts_with("error: ") {
        return JobFault::Usage(text);
    }
    JobFault::of_text(format!(in alloc; "{text}With '--at <PATH>' the report reads no <FILE>.\n"))
}
