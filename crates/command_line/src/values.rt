//! Single values among the matches of `clap`: words, flags, numbers and formats.
ghost use Rattle.std.specs.Prelude.{◌≡◌, ◌≤◌, true, option_map, IfOk, Some, is_none, is_some};
ghost use Rattle.std.specs.String.{string_bytes};
ghost use Rattle.allotment.specs.Texts.{number_from};
ghost use Rattle.command_line.specs.Jobs.{Reads, ReadsOne};
ghost use Rattle.command_line.specs.Values.{format_in, is_malformed, is_set, log_in, number_named, text_format_in, values_read};

use crate::errors::{no_number, no_value};
use crate::jobs::{JobFault, LogForm};
use clap::ArgMatches;
use commands::number_between;
use saga_core::Format;
use std::alloc::{AllocError, Global};

/// The option of a format.
const FORMAT: &str = "--format <FORMAT>";

/// What is allowed of it where the calendar is asked for.
const CALENDAR: &str = "text, which the calendar is";

/// The value of this name. The precondition says that there is one.
pub(crate) fn value_of(alloc: Global, matches: &ArgMatches, id: &str) -> Result<String, AllocError>
    requires { is_some (values_read matches.now id.now) ≡ true }
    ensures value { IfOk result (λ value.
        values_read matches.now id.now ≡ Some (string_bytes value)) }
{
    String::from_str(alloc, matches.get_str(id).unwrap())
}

/// The value of this name, if there is one.
pub(crate) fn value_if_given(
    alloc: Global,
    matches: &ArgMatches,
    id: &str,
) -> Result<Option<String>, AllocError>
    ensures value { IfOk result (λ value.
        values_read matches.now id.now ≡ option_map string_bytes value) }
{
    match matches.get_str(id) {
        Some(word) => Ok(Some(String::from_str(alloc, word)?)),
        None => Ok(None),
    }
}

/// Whether the flag of this name is given. `clap` reads `true` for one that is.
pub(crate) fn is_given(matches: &ArgMatches, id: &str) -> bool
    ensures given { result ≡ is_set (values_read matches.now id.now) }
{
    match matches.get_str(id) {
        Some(word) => word == "true",
        None => false,
    }
}

/// How the log is written, if it is asked for.
pub(crate) fn log_in(matches: &ArgMatches) -> Option<LogForm>
    ensures log { result ≡ log_in (values_read matches.now) }
{
    if is_given(matches, "LOG") {
        Some(LogForm::Plain)
    } else {
        None
    }
}

/// The number under this name, from 1 to `most`, if there is a value of this name. An error names its option.
pub(crate) fn number_if_given(
    alloc: Global,
    matches: &ArgMatches,
    id: &str,
    option: &str,
    most: u16,
) -> Result<Option<u16>, JobFault>
    ensures reads { Reads (λ number. number_named most (values_read matches.now id.now) ≡ number)
        (is_malformed most (values_read matches.now id.now)) result }
{
    let Some(word) = matches.get_str(id) else {
        return Ok(None);
    };
    match number_in(alloc, word, id, option, most) {
        Ok(number) => Ok(Some(number)),
        Err(fault) => Err(fault),
    }
}

/// The number that a word spells, from 1 to `most`. An error names its option.
pub(crate) fn number_in(
    alloc: Global,
    word: &str,
    id: &str,
    option: &str,
    most: u16,
) -> Result<u16, JobFault>
    ensures reads { ReadsOne (number_from 1 most word.now) result }
{
    match number_between(word, 1, usize::from(most)) {
        Some(number) => Ok(number as u16),
        None => Err(no_number(alloc, word, option, id, most)),
    }
}

/// The format of a report: a text if none is given.
pub(crate) fn format_in(alloc: Global, matches: &ArgMatches) -> Result<Format, JobFault>
    ensures reads { ReadsOne (format_in (values_read matches.now)) result }
{
    match matches.get_str("FORMAT") {
        None => Ok(Format::Text),
        Some("text") => Ok(Format::Text),
        Some("json") => Ok(Format::Json),
        Some("csv") => Ok(Format::Csv),
        Some(word) => Err(no_value(alloc, word, FORMAT, "text, json or csv")),
    }
}

/// Refuses a format of the calendar that is not a text.
pub(crate) fn text_in(alloc: Global, matches: &ArgMatches) -> Result<(), JobFault>
    ensures reads { Reads (λ _. text_format_in (values_read matches.now) ≡ Some Format.Text)
        (is_none (text_format_in (values_read matches.now))) result }
{
    match format_in(alloc, matches)? {
        Format::Text => Ok(()),
        Format::Json => Err(no_value(alloc, "json", FORMAT, CALENDAR)),
        Format::Csv => Err(no_value(alloc, "csv", FORMAT, CALENDAR)),
    }
}
