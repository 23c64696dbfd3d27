//! Tests of `saga_core` and `memory_book`: what a step does, and worked journeys on the desk in memory.
#![tactic(auto)]

#[cfg(test)]
mod tests;
