//! Words of the command line that are refused, or ask for help: each gets the text of a usage.
use crate::tests::desks::holds;
use crate::tests::jobs::{asked, words_of};
use std::alloc::Global;
use std::process::Abort;
use std::test::Fail;

// what the row shows, the words, and the prefix of the usage
#[rattlefmt::skip]
const REFUSED: [(&str, &str, &str); 46] = [
    ("another subcommand",       "fly|x.db",       "error: unrecognized subcommand 'fly'"),
    ("a subcommand in capitals", "RUN|x.db",       "error: unrecognized subcommand 'RUN'"),
    ("a part of a subcommand",   "ru|x.db",        "error: unrecognized subcommand 'ru'"),
    ("an empty word",            "",               "error: unrecognized subcommand ''"),
    ("an unknown flag",          "--fast|run|x",   "error: unexpected argument '--fast' found"),
    ("help",                     "--help",         "A booking desk for travel agencies"),
    ("help in short",            "-h",             "A booking desk for travel agencies"),
    ("help as a word",           "help",           "A booking desk for travel agencies"),
    ("no file",                  "run",            "error: the following required arguments were not provided:\n  <FILE>\n\nUsage: desk run <FILE>\n"),
    ("two files",                "run|x.db|y.db",  "error: unexpected argument 'y.db' found\n\nUsage: desk run <FILE>\n"),
    ("a flag that run has not",  "run|--fast|x",   "error: unexpected argument '--fast' found"),
    ("no file to recover",       "recover",        "error: the following required arguments were not provided:\n  <FILE>\n\nUsage: desk recover <FILE>\n"),
    ("two files to recover",     "recover|x|y",    "error: unexpected argument 'y' found\n\nUsage: desk recover <FILE>\n"),
    ("help of recover",          "recover|--help", "Finish or undo every journey under way, as after a crash\n\nOpens the database FILE, created if absent."),
    ("recover, in short",        "recover|-h",     "Finish or undo every journey under way, as after a crash\n\nUsage: desk recover <FILE>\n"),
    ("help of run",              "run|--help",     "Execute commands from standard input, one per line\n\nOpens the database FILE, created if absent."),
    ("run, in short",            "run|-h",         "Execute commands from standard input, one per line\n\nUsage: desk run <FILE>\n"),
    ("help, then run",           "help|run",       "Execute commands from standard input, one per line\n\nOpens the database FILE, created if absent."),
    ("help of run, as it is called", "help|run|now", "error: unrecognized subcommand 'now'"),
    ("a version of run",         "run|--version",  "error: unexpected argument '--version' found"),
    ("a version in one letter",  "-v",             "error: unexpected argument '-v' found"),
    ("a version as a word",      "version",        "error: unrecognized subcommand 'version'"),
    ("a part of it",             "--vers",         "error: unexpected argument '--vers' found"),
    ("no file for stock",        "stock",          "error: the following required arguments were not provided:\n  <FILE>\n\nUsage: desk stock <FILE>\n"),
    ("two files for stock",      "stock|x|y",      "error: unexpected argument 'y' found\n\nUsage: desk stock [OPTIONS] <FILE>\n"),
    ("two for unfinished",       "unfinished|x|y", "error: unexpected argument 'y' found\n\nUsage: desk unfinished [OPTIONS] <FILE>\n"),
    ("no number",                "history|x.db",   "error: the following required arguments were not provided:\n  <ID>\n\nUsage: desk history <FILE> <ID>\n"),
    ("two numbers",              "history|x|1|2",  "error: unexpected argument '2' found\n\nUsage: desk history [OPTIONS] <FILE> <ID>\n"),
    ("a number below zero",      "history|x|-1",   "error: unexpected argument '-1' found\n"),
    ("an unknown format",        "stock|x|--format|xml", "error: invalid value 'xml' for '--format <FORMAT>': not text, json or csv\n"),
    ("a format in capitals",     "unfinished|x|--format|JSON", "error: invalid value 'JSON' for '--format <FORMAT>': not text, json or csv\n"),
    ("a part of a format",       "history|x|1|--format|cs", "error: invalid value 'cs' for '--format <FORMAT>': not text, json or csv\n"),
    ("two formats",              "stock|x|--format|csv|--format|csv", "error: the argument '--format <FORMAT>' cannot be used multiple times\n"),
    ("a flag without a format",  "stock|x|--format", "error: a value is required for '--format <FORMAT>' but none was supplied\n"),
    ("an empty format",          "stock|x|--format=", "error: invalid value '' for '--format <FORMAT>': not text, json or csv\n"),
    ("a format of run",          "run|x|--format|json", "error: unexpected argument '--format' found\n"),
    ("no name of the batch",     "load|x|y",       "error: the following required arguments were not provided:\n  --batch <NAME>\n\nUsage: desk load --batch <NAME> <FILE> <CSV>\n"),
    ("a flag without a name",    "load|x|y|--batch", "error: a value is required for '--batch <NAME>' but none was supplied\n"),
    ("two names",                "load|x|y|--batch|a|--batch|b", "error: the argument '--batch <NAME>' cannot be used multiple times\n\nUsage: desk load --batch <NAME> <FILE> <CSV>\n"),
    ("no allotment file",        "load|x|--batch|a", "error: the following required arguments were not provided:\n  <CSV>\n\nUsage: desk load --batch <NAME> <FILE> <CSV>\n"),
    ("two allotment files",      "load|x|y|z|--batch|a", "error: unexpected argument 'z' found\n\nUsage: desk load --batch <NAME> <FILE> <CSV>\n"),
    ("--explain, after recover", "recover|--explain|x", "error: unexpected argument '--explain' found\n\n  tip: to pass '--explain' as a value, use '-- --explain'\n\nUsage: desk recover <FILE>\n\nFor more information, try '--help'.\nThe word '--explain' stands before the command: 'desk --explain recover'.\n"),
    ("--explain, as a file",     "recover|x|--|--explain", "error: unexpected argument '--explain' found\n\nUsage: desk recover <FILE>\n\nFor more information, try '--help'.\nThe word '--explain' stands before the command: 'desk --explain recover'.\n"),
    ("two files to migrate",     "migrate|x|y",    "error: unexpected argument 'y' found\n\nUsage: desk migrate <FILE>\n"),
    ("help of load",             "load|--help",    "Load allotments from a CSV file, as one batch\n\nOpens the database FILE, created if absent."),
    ("load, in short",           "load|-h",        "Load allotments from a CSV file, as one batch\n\nUsage: desk load --batch <NAME> <FILE> <CSV>\n"),
];

// the same, of the words of serve
#[rattlefmt::skip]
const REFUSED_OF_SERVE: [(&str, &str, &str); 34] = [
    ("port 0",                   "serve|x|--port|0|--connections|1", "error: invalid value '0' for '--port <PORT>': not a number from 1 to 65535\n"),
    ("port 65536",               "serve|x|--port|65536|--connections|1", "error: invalid value '65536' for '--port <PORT>': not a number from 1 to 65535\n"),
    ("a port past every number", "serve|x|--port|18446744073709551617|--connections|1", "error: invalid value '18446744073709551617' for '--port <PORT>'"),
    ("a port with a sign",       "serve|x|--port|+80|--connections|1", "error: invalid value '+80' for '--port <PORT>'"),
    ("a port below zero",        "serve|x|--port=-80|--connections|1", "error: invalid value '-80' for '--port <PORT>'"),
    ("a port with a zero",       "serve|x|--port|080|--connections|1", "error: invalid value '080' for '--port <PORT>'"),
    ("a port with a blank",      "serve|x|--port|80 |--connections|1", "error: invalid value '80 ' for '--port <PORT>'"),
    ("a port by its name",       "serve|x|--port|http|--connections|1", "error: invalid value 'http' for '--port <PORT>'"),
    ("an empty port",            "serve|x|--port=|--connections|1", "error: "),
    ("connections 0",            "serve|x|--port|80|--connections|0", "error: invalid value '0' for '--connections <N>': not a number from 1 to 1000\n"),
    ("connections 1001",         "serve|x|--port|80|--connections|1001", "error: invalid value '1001' for '--connections <N>': not a number from 1 to 1000\n"),
    ("both out of range",        "serve|x|--port|0|--connections|0", "error: invalid value '0' for '--port <PORT>'"),
    ("no port",                  "serve|x|--connections|1", "error: the following required arguments were not provided:\n  --port <PORT>\n"),
    ("neither",                  "serve|x", "error: the following required arguments were not provided:\n  --port <PORT>\n"),
    ("a house without a path",   "serve|x|--port|80|--house", "error: a value is required for '--house <PATH>' but none was supplied\n"),
    ("two pages",                "serve|x|--port|80|--page|--page", "error: the argument '--page' cannot be used multiple times\n"),
    ("a page with a value",      "serve|x|--port|80|--page=yes", "error: unexpected value 'yes' for '--page' found"),
    ("two houses",               "serve|x|--port|80|--house|a|--house|b", "error: the argument '--house <PATH>' cannot be used multiple times\n"),
    ("a log with a value",       "serve|x|--port|80|--log=yes", "error: unexpected value 'yes' for '--log' found; no more were expected\n"),
    ("a log with time apart",    "serve|x|--port|80|--log|time", "error: unexpected argument 'time' found\n"),
    ("a log with two times",     "serve|x|--port|80|--log=time=time", "error: unexpected value 'time=time' for '--log' found; no more were expected\n"),
    ("two logs, one with times", "serve|x|--port|80|--log=time|--log", "error: the argument '--log' cannot be used multiple times\n"),
    ("a log of the stock",       "stock|x|--log=time",       "error: unexpected argument '--log' found\n"),
    ("two logs",                 "serve|x|--port|80|--log|--log", "error: the argument '--log' cannot be used multiple times\n"),
    ("wide with a value",        "serve|x|--port|80|--wide=yes", "error: unexpected value 'yes' for '--wide' found; no more were expected\n"),
    ("twice wide",               "serve|x|--port|80|--wide|--wide", "error: the argument '--wide' cannot be used multiple times\n"),
    ("connections of no digit",  "serve|x|--port|80|--connections|all", "error: invalid value 'all' for '--connections <N>'"),
    ("no file to serve",         "serve|--port|80|--connections|1", "error: the following required arguments were not provided:\n  <FILE>\n"),
    ("two files to serve",       "serve|x|y|--port|80|--connections|1", "error: unexpected argument 'y' found\n"),
    ("a flag without a port",    "serve|x|--connections|1|--port", "error: a value is required for '--port <PORT>' but none was supplied\n"),
    ("two ports",                "serve|x|--port|80|--port|81|--connections|1", "error: the argument '--port <PORT>' cannot be used multiple times\n"),
    ("a part of a flag",         "serve|x|--por|80|--connections|1", "error: unexpected argument '--por' found\n"),
    ("help of serve",            "serve|--help", "Serve HTTP requests from many clients at once\n\nOpens the database FILE, created if absent."),
    ("serve, in short",          "serve|-h", "Serve HTTP requests from many clients at once\n\nUsage: desk serve [OPTIONS] --port <PORT> <FILE>\n"),
];

// the same, of the words of the calendar, and of those that ask for one cell or one journey
#[rattlefmt::skip]
const REFUSED_OF_ONE: [(&str, &str, &str); 25] = [
    ("a calendar as objects",    "stock|x|--calendar|--format|json", "error: invalid value 'json' for '--format <FORMAT>': not text, which the calendar is\n\nFor more information, try '--help'.\n"),
    ("a calendar as records",    "stock|x|--format|csv|--calendar", "error: invalid value 'csv' for '--format <FORMAT>': not text, which the calendar is\n"),
    ("a calendar in an unknown format", "stock|x|--calendar|--format|xml", "error: invalid value 'xml' for '--format <FORMAT>': not text, json or csv\n"),
    ("a calendar of an unknown kind", "stock|x|--calendar|--format|json|--kind|F", "error: invalid value 'F' for '--kind <KIND>'"),
    ("a calendar with a value",  "stock|x|--calendar=yes", "error: unexpected value 'yes' for '--calendar' found; no more were expected\n"),
    ("two calendars",            "stock|x|--calendar|--calendar", "error: the argument '--calendar' cannot be used multiple times\n"),
    ("a calendar of a summary",  "summary|x|--calendar", "error: unexpected argument '--calendar' found\n"),
    ("a cell and a product",     "holders|x|R/INN/DBL/2030-06-01|--product|DBL", "error: the argument '--product <PRODUCT>' cannot be used with '[CELL]'\n\nFor more information, try '--help'.\n"),
    ("two cells",                "holders|x|R/INN/DBL/2030-06-01|R/INN/DBL/2030-06-02", "error: unexpected argument 'R/INN/DBL/2030-06-02' found\n\nUsage: desk holders [OPTIONS] <FILE> [CELL]\n"),
    ("a cell without a night",   "holders|x|R/INN/DBL", "error: invalid value 'R/INN/DBL' for '<CELL>': not a cell, as R/INN/DBL/2030-06-01\n\nFor more information, try '--help'.\n"),
    ("a kind in a word",         "holders|x|room/INN/DBL/2030-06-01", "error: invalid value 'room/INN/DBL/2030-06-01' for '<CELL>': not a cell"),
    ("a supplier of 9 letters",  "holders|x|R/ABCDEFGHI/DBL/2030-06-01", "error: invalid value 'R/ABCDEFGHI/DBL/2030-06-01' for '<CELL>': not a cell"),
    ("a night that is none",     "holders|x|R/INN/DBL/2030-02-30", "error: invalid value 'R/INN/DBL/2030-02-30' for '<CELL>': not a cell"),
    ("a want",                   "holders|x|R/INN/DBL/2030-06-01/1/1", "error: invalid value 'R/INN/DBL/2030-06-01/1/1' for '<CELL>': not a cell"),
    ("a bad cell before a bad format", "holders|x|R|--format|xml", "error: invalid value 'R' for '<CELL>'"),
    ("holders in an unknown format", "holders|x|R/INN/DBL/2030-06-01|--format|xml", "error: invalid value 'xml' for '--format <FORMAT>': not text, json or csv\n"),
    ("help of holders",          "holders|--help", "Print which journeys hold places of a cell, or of cells\n\nOpens the database FILE without recovering it"),
    ("journey 0",                "why|x|0", "error: invalid value '0' for '<ID>': not a number from 1 to 999999999999\n\nFor more information, try '--help'.\n"),
    ("a journey past all",       "why|x|1000000000000", "error: invalid value '1000000000000' for '<ID>': not a number from 1 to 999999999999\n"),
    ("a journey with a zero",    "why|x|01", "error: invalid value '01' for '<ID>'"),
    ("a journey by a word",      "why|x|one", "error: invalid value 'one' for '<ID>'"),
    ("an empty journey",         "why|x|", "error: invalid value '' for '<ID>'"),
    ("no journey",               "why|x.db", "error: the following required arguments were not provided:\n  <ID>\n\nUsage: desk why <FILE> <ID>\n"),
    ("a reason in an unknown format", "why|x|1|--format|XML", "error: invalid value 'XML' for '--format <FORMAT>': not text, json or csv\n"),
    ("help of why",              "why|--help", "Print why a journey stands where it does\n\nOpens the database FILE without recovering it"),
];

// the same, of the words that name a socket
#[rattlefmt::skip]
const REFUSED_OF_SOCKETS: [(&str, &str, &str); 19] = [
    ("a file and a socket",      "stock|x|--at|d", "error: unexpected argument 'x' found\n\nUsage: desk stock [OPTIONS] <FILE>\n\nFor more information, try '--help'.\nWith '--at <PATH>' the report reads no <FILE>.\n"),
    ("a file, a cell and a socket", "holders|x|R/INN/DBL/2030-06-01|--at|d", "error: unexpected argument 'R/INN/DBL/2030-06-01' found\n"),
    ("a file in place of a cell", "holders|--at|d|x", "error: invalid value 'x' for '<CELL>': not a cell, as R/INN/DBL/2030-06-01\n"),
    ("a file and a journey",     "history|--at|d|x|1", "error: unexpected argument '1' found\n"),
    ("no journey",               "why|--at|d", "error: the following required arguments were not provided:\n  <ID>\n\nUsage: desk why <FILE> <ID>\n\nFor more information, try '--help'.\nWith '--at <PATH>' the report reads no <FILE>.\n"),
    ("no path",                  "stock|--at", "error: a value is required for '--at <PATH>' but none was supplied\n"),
    ("an option as a path",      "stock|--at|--calendar", "error: a value is required for '--at <PATH>' but none was supplied\n"),
    ("two sockets",              "stock|--at|a|--at|b", "error: the argument '--at <PATH>' cannot be used with '<FILE>'\n"),
    ("a file, and a dash",       "stock|x|--at|-", "error: the argument '--at <PATH>' cannot be used with '<FILE>'\n\nFor more information, try '--help'.\n"),
    ("an unknown kind",          "stock|--at|d|--kind|F", "error: invalid value 'F' for '--kind <KIND>': not flight, room, transfer or cover\n\nFor more information, try '--help'.\nWith '--at <PATH>' the report reads no <FILE>.\n"),
    ("a part of the option",     "stock|x|--a|d", "error: unexpected argument '--a' found\n"),
    ("a socket of run",          "run|--at|d", "error: unexpected argument '--at' found\n"),
    ("a socket of a migration",  "migrate|x|--at|d", "error: unexpected argument '--at' found\n"),
    ("a socket of an index",     "index|--at|d", "error: unexpected argument '--at' found\n"),
    ("a socket of load",         "load|--at|d|x.csv|--batch|b", "error: unexpected argument '--at' found\n"),
    ("a socket of recover",      "recover|--at=d", "error: unexpected argument '--at' found\n"),
    ("a socket of serve",        "serve|--at|d|--port|80", "error: unexpected argument '--at' found\n"),
    ("--explain at a socket",    "stock|--at|d|--explain", "error: unexpected argument '--explain' found\n"),
    ("help at a socket",         "why|--at|d|--help", "Print why a journey stands where it does\n\nOpens the database FILE without recovering it"),
];

// the same, of the words that ask for cells and journeys
#[rattlefmt::skip]
const REFUSED_OF_FILTERS: [(&str, &str, &str); 19] = [
    ("an unknown kind",          "stock|x|--kind|F", "error: invalid value 'F' for '--kind <KIND>': not flight, room, transfer or cover\n"),
    ("a supplier of 9",          "stock|x|--supplier|ABCDEFGHI", "error: invalid value 'ABCDEFGHI' for '--supplier <SUPPLIER>': not 1 to 8 of A-Z and 0-9\n"),
    ("a product in small",       "stock|x|--product|a1", "error: invalid value 'a1' for '--product <PRODUCT>': not 1 to 8 of A-Z and 0-9\n"),
    ("a day that is none",       "stock|x|--from|2030-02-30", "error: invalid value '2030-02-30' for '--from <FROM>': not a day from 2000-01-01 to 2099-12-31\n"),
    ("a day past all nights",    "stock|x|--to|2100-01-01", "error: invalid value '2100-01-01' for '--to <TO>': not a day from 2000-01-01 to 2099-12-31\n"),
    ("a bad kind before a bad format", "stock|x|--format|xml|--kind|F", "error: invalid value 'F' for '--kind <KIND>'"),
    ("two suppliers",            "stock|x|--supplier|A|--supplier|B", "error: the argument '--supplier <SUPPLIER>' cannot be used multiple times\n"),
    ("an unknown kind of a summary", "summary|x|--kind|F", "error: invalid value 'F' for '--kind <KIND>': not flight, room, transfer or cover\n"),
    ("a summary in an unknown format", "summary|x|--format|xml", "error: invalid value 'xml' for '--format <FORMAT>': not text, json or csv\n"),
    ("no file for a summary",    "summary", "error: the following required arguments were not provided:\n  <FILE>\n\nUsage: desk summary <FILE>\n"),
    ("an agent of a summary",    "summary|x|--agent|ann", "error: unexpected argument '--agent' found\n"),
    ("a supplier of journeys",   "journeys|x|--supplier|A", "error: unexpected argument '--supplier' found\n"),
    ("an agent in capitals",     "journeys|x|--agent|Ann", "error: invalid value 'Ann' for '--agent <AGENT>': not 1 to 16 of a-z and 0-9\n"),
    ("an agent of 17",           "unfinished|x|--agent|a2345678901234567", "error: invalid value 'a2345678901234567' for '--agent <AGENT>'"),
    ("an unknown state",         "journeys|x|--state|done", "error: invalid value 'done' for '--state <STATE>': not run, back, ended or undone\n"),
    ("ended ones, unfinished",   "unfinished|x|--state|ended", "error: invalid value 'ended' for '--state <STATE>': not run or back\n"),
    ("no file for journeys",     "journeys", "error: the following required arguments were not provided:\n  <FILE>\n\nUsage: desk journeys <FILE>\n"),
    ("two files for journeys",   "journeys|x|y", "error: unexpected argument 'y' found\n\nUsage: desk journeys [OPTIONS] <FILE>\n"),
    ("help of journeys",         "journeys|--help", "Print all journeys, ended ones too\n\nOpens the database FILE without recovering it"),
];

/// Stops the test unless the words of each row get a usage that begins so.
fn get_the_usage(rt: &impl Abort, alloc: Global, rows: &[(&str, &str, &str)]) -> Result<(), Fail> {
    for &(case, words, expected) in rows {
        let found = asked(alloc, words_of(alloc, words)?)?;
        holds(rt, case, found.as_str().starts_with(expected));
    }
    Ok(())
}

#[test]
fn other_words_get_the_usage(rt: HostRuntime) -> Result<(), Fail> {
    get_the_usage(&rt, rt.alloc(), &REFUSED)
}

#[test]
fn other_words_of_serve_get_the_usage(rt: HostRuntime) -> Result<(), Fail> {
    get_the_usage(&rt, rt.alloc(), &REFUSED_OF_SERVE)
}

#[test]
fn other_words_of_sockets_get_the_usage(rt: HostRuntime) -> Result<(), Fail> {
    get_the_usage(&rt, rt.alloc(), &REFUSED_OF_SOCKETS)
}

#[test]
fn other_words_of_filters_get_the_usage(rt: HostRuntime) -> Result<(), Fail> {
    get_the_usage(&rt, rt.alloc(), &REFUSED_OF_FILTERS)
}

#[test]
fn other_words_of_one_cell_or_journey_get_the_usage(rt: HostRuntime) -> Result<(), Fail> {
    get_the_usage(&rt, rt.alloc(), &REFUSED_OF_ONE)
}

#[test]
fn no_word_gets_the_usage(rt: HostRuntime) -> Result<(), Fail> {
    let found = asked(rt.alloc(), Vec::new(rt.alloc()))?;
    let expected = "A booking desk for travel agencies";
    holds(&rt, "no word", found.as_str().starts_with(expected));
    Ok(())
}
