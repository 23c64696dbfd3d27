//! The job of the words of the command line.
//!
//! The first word names the subcommand, or asks for the version. `clap` reads the others, by its rules for that
//! subcommand alone. If the first word does neither, the usage of all subcommands is returned.
ghost use Rattle.std.specs.Prelude.{◌≡◌, ◌≢◌, true, map, All, IfOk, is_some};
ghost use Rattle.std.specs.String.{string_bytes};
ghost use Rattle.clap.specs.Words.{kind_of};
ghost use Rattle.command_line.specs.Explaining.{ShowsText, usage_with_place};
ghost use Rattle.command_line.specs.Jobs.{names_version, refuses, value_in, IsJobOf, IsText, Reads, ReadsWordsOf};
ghost use Rattle.command_line.specs.Subcommands.{app_for, helped_in, is_refused_by, needed_for};
ghost use Rattle.command_line.specs.Values.{values_read};

use crate::asked::no_socket_in;
use crate::help::program_command;
use crate::job_values::job_in;
use crate::jobs::{Job, JobFault};
use crate::subcommands::Subcommand;
use clap::error::ErrorKind;
use clap::{ArgMatches, Error};
use std::alloc::{AllocError, Global};

/// How `clap` begins where the word that asks for an explanation stands after a subcommand.
const MISPLACED: &str = "error: unexpected argument '--explain' found\n";

/// The job of these words, which follow the program's name, over a file. Errors are the text of a usage, and out of memory.
pub(crate) fn job(alloc: Global, words: Vec<String>) -> Result<Job, JobFault>
    ensures reads { ReadsWordsOf (map string_bytes words.items) result }
{
    let Some((name, others)) = words.split_first() else {
        return Err(usage_of_all(alloc, words.as_slice())?);
    };
    if is_version(name.as_str()) {
        return Ok(Job::Version);
    }
    match Subcommand::named(name.as_str()) {
        Some(subcommand) => job_of(alloc, subcommand, others),
        None => Err(usage_of_all(alloc, words.as_slice())?),
    }
}

/// Whether a word asks for the version.
fn is_version(word: &str) -> bool
    ensures version { result ≡ names_version word.now }
{
    word == "--version" || word == "-V"
}

/// The job of a subcommand, with the values of the words that follow it.
fn job_of(alloc: Global, subcommand: Subcommand, words: &[String]) -> Result<Job, JobFault>
    ensures reads { Reads (IsJobOf subcommand (map string_bytes words.now))
        (refuses subcommand (map string_bytes words.now)) result }
{
    let matches = matches_in(alloc, subcommand, words)?;
    no_socket_in(alloc, subcommand, &matches)?;
    job_in(alloc, subcommand, &matches)
}

/// The matches that `clap` reads from the words after a subcommand.
fn matches_in<'a>(
    alloc: Global,
    subcommand: Subcommand,
    words: &'a [String],
) -> Result<ArgMatches<'a>, JobFault>
    ensures reads { Reads (λ matches. values_read matches
        ≡ value_in (app_for subcommand) (map string_bytes words.entry.now))
        (is_refused_by (app_for subcommand) (map string_bytes words.entry.now)) result }
    ensures each { IfOk result (λ matches.
        All (λ id. is_some (values_read matches id) ≡ true) (needed_for subcommand)) }
{
    let command = subcommand.command(alloc)?;
    match command.try_get_matches_from(words) {
        Ok(matches) => Ok(matches),
        Err(error) => Err(fault_after(alloc, subcommand, &error)),
    }
}

/// The fault of an error of the words after a subcommand. Where the word that asks for an explanation is among them, a line
/// after the text of `clap` says where it belongs.
fn fault_after(alloc: Global, subcommand: Subcommand, error: &Error) -> JobFault
    ensures usage { IsText result → kind_of error.now ≢ ErrorKind.OutOfMemory }
{
    match fault_of(alloc, error) {
        JobFault::Usage(text) => with_place(alloc, subcommand, text),
        JobFault::Memory => JobFault::Memory,
    }
}

/// The fault of this text of `clap`, with the line on that word if the text is about it.
fn with_place(alloc: Global, subcommand: Subcommand, text: String) -> JobFault
    ensures text { ShowsText (usage_with_place subcommand (string_bytes text)) result }
{
    if !text.as_bytes().starts_with(MISPLACED.as_bytes()) {
        return JobFault::Usage(text);
    }
    let name = subcommand.name();
    let text = format!(in alloc;
        "{text}The word '--explain' stands before the command: 'desk --explain {name}'.\n"
    );
    match text {
        Ok(text) => JobFault::Usage(text),
        Err(_) => JobFault::Memory,
    }
}

/// The error of words that name no subcommand: the help that they ask for, or the usage of all subcommands. No clause sees
/// which text it is: `clap` makes it, and says nothing of what it makes of a command.
fn usage_of_all(alloc: Global, words: &[String]) -> Result<JobFault, AllocError> {
    if let Some(subcommand) = helped(words) {
        return help_text(alloc, subcommand);
    }
    let mut program = program_command(alloc)?;
    match program.try_get_matches_from_mut(words) {
        Err(error) => Ok(fault_of(alloc, &error)),
        Ok(_) => Ok(JobFault::Usage(program.render_usage()?)),
    }
}

/// The subcommand that `help` asks about, if its name is the last word.
fn helped(words: &[String]) -> Option<Subcommand>
    ensures helped { result ≡ helped_in (map string_bytes words.now) }
{
    match words {
        [help, name] if help.as_str() == "help" => Subcommand::named(name.as_str()),
        _ => None,
    }
}

/// The long help of a subcommand. The words of the call are `desk` and the subcommand's name.
fn help_text(alloc: Global, subcommand: Subcommand) -> Result<JobFault, AllocError>
    ensures usage { IfOk result IsText }
{
    let mut command = subcommand.command(alloc)?;
    Ok(JobFault::Usage(command.render_long_help()?))
}

/// The fault of an error of `clap`: its text, or out of memory.
fn fault_of(alloc: Global, error: &Error) -> JobFault
    ensures usage { IsText result → kind_of error.now ≢ ErrorKind.OutOfMemory }
{
    match error.kind() {
        ErrorKind::OutOfMemory => JobFault::Memory,
        _ => JobFault::of_text(error.to_string(alloc)),
    }
}
