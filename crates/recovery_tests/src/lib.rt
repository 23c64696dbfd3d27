//! Tests across the crates. Of recovery over a desk in memory: its result for worked journeys, how often it reads an unfinished
//! journey, and a store that fails after any number of its commands. Of random commands, answered by the desk in memory, by the
//! desk over tables in a file that is closed and opened again, and by a slow, plain program that follows the definitions.
#![tactic(auto)]

#[cfg(test)]
mod tests;
