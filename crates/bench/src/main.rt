//! Measurements of this repository's code, for `./bench`.
//!
//! With the word `plan-line` it prints a row for lines of 6, 12 and 24 steps: the bytes of the line, how often it is
//! read in a second, how often it is split, and the ratio of the two. With the word `steps` it prints how many steps a
//! second the desk in memory executes, a row for each number of earlier events. With the word `file` it prints how long
//! it takes to read an allotment file of 2,000 rows, and only its records. With `load FILE COUNT` it loads so many
//! batches of 2,000 new rows into the database FILE, and prints the shortest time of a load. With
//! `history FILE JOURNEY` it prints how long it takes to read a journey and its items from the database FILE. With
//! `statements FILE` it executes the statements of its input over the database FILE. No time is promised. The program is
//! proved safe, like every other.
#![tactic(auto)]

mod files;
mod histories;
mod loads;
mod plan_lines;
mod statements;
mod stepping;

use std::{env, io};

fn main(rt: HostRuntime) -> io::Result<()> {
    let mut words = env::args(&rt)?.skip(1);
    let (Some(what), file, count) = (words.next(), words.next(), words.next()) else {
        return usage(&rt);
    };
    match (what.as_str(), file, count) {
        ("plan-line", None, _) => plan_lines::compare(&rt),
        ("steps", None, _) => stepping::compare(&rt),
        ("file", None, _) => files::compare(&rt),
        ("load", Some(file), Some(count)) => loads::load_batches(
            &rt,
            file.as_str(),
            count.as_str(),
        ),
        ("history", Some(file), Some(journey)) => histories::ask_history(
            &rt,
            file.as_str(),
            journey.as_str(),
        ),
        ("statements", Some(file), None) => statements::run_statements(&rt, file.as_str()),
        _ => usage(&rt),
    }
}

fn usage(rt: &impl Print) -> io::Result<()> {
    println!(rt;
        "usage: bench plan-line | steps | file | load FILE COUNT | history FILE JOURNEY | statements FILE"
    )
}
