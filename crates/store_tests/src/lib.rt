//! Tests of the desk over tables: what it opens and shows, how agents are answered, and stores that fail at any call
//! and are opened again.
#![tactic(auto)]

#[cfg(test)]
mod tests;
