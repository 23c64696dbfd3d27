//! Tests of the program's words, lines and ends over a desk in memory: what no clause says of them, and what failing
//! readers and writers do.
#![tactic(auto)]

#[cfg(test)]
mod tests;
