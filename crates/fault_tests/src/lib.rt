//! Tests of the desk over tables on a store in memory that fails from any call on, and where any allocation is refused:
//! worked rows as commands, half of them under keys, and recovery.
#![tactic(auto)]

#[cfg(test)]
mod tests;
