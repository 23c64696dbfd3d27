//! Tests of the desk over HTTP, on a desk in memory: the pages of worked requests, whole or cut, good or hostile, and
//! the state after failed reads and writes.
#![tactic(auto)]

#[cfg(test)]
mod tests;
