//! The errors that `clap` does not find, each with its text, or out of memory.
ghost use Rattle.command_line.specs.Errors.{option_error, up_to, value_error, with_name};
ghost use Rattle.command_line.specs.Explaining.{ShowsText};

use crate::jobs::JobFault;
use std::alloc::Global;

/// A value that is not what is allowed. The option is named with its value.
pub(crate) fn no_value(alloc: Global, word: &str, option: &str, allowed: &str) -> JobFault
    ensures text { ShowsText (value_error word.now option.now allowed.now) result }
{
    JobFault::of_text(format!(in alloc;
        "error: invalid value '{word}' for '{option}': not {allowed}\n\nFor more information, try '--help'.\n"
    ))
}

/// The same, of an option and the name of its value.
pub(crate) fn no_value_of(
    alloc: Global,
    word: &str,
    option: &str,
    name: &str,
    allowed: &str,
) -> JobFault
    ensures text { ShowsText (value_error word.now (with_name option.now name.now) allowed.now)
        result }
{
    match format!(in alloc; "{option} <{name}>") {
        Ok(option) => no_value(alloc, word, option.as_str(), allowed),
        Err(_) => JobFault::Memory,
    }
}

/// The same, where a number from 1 to `most` is allowed.
pub(crate) fn no_number(alloc: Global, word: &str, option: &str, name: &str, most: u16) -> JobFault
    ensures text { ShowsText (value_error word.now (with_name option.now name.now) (up_to most))
        result }
{
    match format!(in alloc; "a number from 1 to {most}") {
        Ok(allowed) => no_value_of(alloc, word, option, name, allowed.as_str()),
        Err(_) => JobFault::Memory,
    }
}

/// An option beside a value with which it cannot be used.
pub(crate) fn no_option(alloc: Global, option: &str, value: &str) -> JobFault
    ensures text { ShowsText (option_error option.now value.now) result }
{
    JobFault::of_text(format!(in alloc;
        "error: the argument '{option}' cannot be used with '{value}'\n\nFor more information, try '--help'.\n"
    ))
}
