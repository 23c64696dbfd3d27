//! The values that each subcommand reads from the words after it, and how `clap` reads them.
ghost use Rattle.std.specs.Prelude.{map, IfOk};
ghost use Rattle.command_line.specs.Subcommands.{flagged, needed, optional, rule_said, AddsRules, IsWordOf};

use clap::{Arg, ArgAction, Command};
use std::alloc::{AllocError, Global};

/// A value that a subcommand reads: its name, the option that it follows, if any, and a line of help.
#[derive(Clone, Copy)]
pub(crate) enum Word<'a> {
    /// A required value, by its place.
    Needed(&'a str, &'a str),
    /// A value that may be left out, by its place.
    Extra(&'a str, &'a str),
    /// A required value, after an option.
    NeededAfter(&'a str, &'a str, &'a str),
    /// A value that may be left out, after an option.
    After(&'a str, &'a str, &'a str),
    /// A flag: it is given or not, and no value follows it.
    Flag(&'a str, &'a str, &'a str),
}

/// The word before the command that asks for an explanation of faults, for the usage.
pub(crate) const EXPLAIN: Word<'static> = Word::Flag(
    "explain",
    "explain",
    "Before the command: say why a fault came, and what to do",
);

/// The values of `serve`, after the file.
pub(crate) static SERVE: [Word<'static>; 6] = [
    Word::NeededAfter("PORT", "port", "The port to listen on, 1 to 65535"),
    Word::After(
        "N",
        "connections",
        "Accept N connections in all, 1 to 1000, then exit",
    ),
    Word::After("PATH", "house", "Also listen on this Unix socket"),
    Word::Flag("PAGE", "page", "Also serve the page for browsers, at /"),
    Word::Flag(
        "LOG",
        "log",
        "Log each request on standard error; --log=time: with times",
    ),
    Word::Flag(
        "WIDE",
        "wide",
        "Read HTTP as libraries and proxies speak it",
    ),
];

/// The values of `load`, after the file.
pub(crate) static LOAD: [Word<'static>; 2] = [
    Word::Needed("CSV", "The allotment file, or - for standard input"),
    Word::NeededAfter("NAME", "batch", "The name of the batch"),
];

/// The values of `stock`, after the file.
pub(crate) static STOCK: [Word<'static>; 8] = [
    Word::Flag(
        "CALENDAR",
        "calendar",
        "Show a month of nights for each product, as text",
    ),
    KIND,
    SUPPLIER,
    PRODUCT,
    FROM,
    TO,
    FORMAT,
    AT,
];

/// The values of `summary`, after the file.
pub(crate) static SUMMARY: [Word<'static>; 7] = [KIND, SUPPLIER, PRODUCT, FROM, TO, FORMAT, AT];

/// The values of `holders`, after the file.
pub(crate) static HOLDERS: [Word<'static>; 8] = [
    Word::Extra(
        "CELL",
        "A cell, as R/INN/DBL/2030-06-01, in place of the options",
    ),
    KIND,
    SUPPLIER,
    PRODUCT,
    FROM,
    TO,
    FORMAT,
    AT,
];

/// The values of `unfinished`, after the file.
pub(crate) static UNFINISHED: [Word<'static>; 4] = [
    AGENT,
    Word::After("STATE", "state", "Show those in a state: run or back"),
    FORMAT,
    AT,
];

/// The values of `journeys`, after the file.
pub(crate) static JOURNEYS: [Word<'static>; 4] = [
    AGENT,
    Word::After(
        "STATE",
        "state",
        "Show those in a state: run, back, ended or undone",
    ),
    FORMAT,
    AT,
];

/// The values of `history` and of `why`, after the file.
pub(crate) static JOURNEY: [Word<'static>; 3] = [
    Word::Needed("ID", "The number of the journey"),
    FORMAT,
    AT,
];

const KIND: Word<'static> = Word::After(
    "KIND",
    "kind",
    "Show a kind: flight, room, transfer or cover",
);

const SUPPLIER: Word<'static> = Word::After("SUPPLIER", "supplier", "Show a supplier");

const PRODUCT: Word<'static> = Word::After("PRODUCT", "product", "Show a product");

const FROM: Word<'static> = Word::After("FROM", "from", "Show nights from a day on, as 2030-06-01");

const TO: Word<'static> = Word::After("TO", "to", "Show nights to a day");

const AGENT: Word<'static> = Word::After("AGENT", "agent", "Show those of an agent");

const AT: Word<'static> = Word::After(
    "PATH",
    "at",
    "Ask the desk at this Unix socket, and read no FILE",
);

const FORMAT: Word<'static> = Word::After("FORMAT", "format", "text (the default), json or csv");

impl<'a> Word<'a> {
    /// The argument by which `clap` reads the value.
    fn arg(self, alloc: Global) -> Arg<'a>
        ensures word { IsWordOf (rule_said self.entry) result }
    {
        match self {
            Word::Needed(id, help) => value(alloc, id, help),
            Word::Extra(id, help) => extra(alloc, id, help),
            Word::NeededAfter(id, name, help) => value(alloc, id, help).long(name),
            Word::After(id, name, help) => extra(alloc, id, help).long(name),
            Word::Flag(id, name, help) => flag(alloc, id, help).long(name),
        }
    }
}

/// A required value.
pub(crate) fn value<'a>(alloc: Global, id: &'a str, help: &'a str) -> Arg<'a>
    ensures word { IsWordOf (needed id.entry.now) result }
{
    Arg::new(alloc, id)
        .help(help)
        .required(true)
        .action(ArgAction::Set)
}

/// A value that may be left out.
fn extra<'a>(alloc: Global, id: &'a str, help: &'a str) -> Arg<'a>
    ensures word { IsWordOf (optional id.entry.now) result }
{
    Arg::new(alloc, id).help(help).action(ArgAction::Set)
}

/// A flag: it is given or not, and no value follows it.
fn flag<'a>(alloc: Global, id: &'a str, help: &'a str) -> Arg<'a>
    ensures word { IsWordOf (flagged id.entry.now) result }
{
    Arg::new(alloc, id).help(help).action(ArgAction::SetTrue)
}

/// The command with these values, one after another.
pub(crate) fn with_words<'a>(
    alloc: Global,
    command: Command<'a>,
    words: &[Word<'a>],
) -> Result<Command<'a>, AllocError>
    ensures asks { IfOk result (AddsRules command.entry (map rule_said words.now)) }
{
    let mut command = command;
    for word in words {
        command = command.arg(word.arg(alloc))?;
    }
    Ok(command)
}
