//! Tests of many connections at once over a desk in memory: random orders of readiness, cuts and faults, beside a plain
//! program that answers one request after another.
#![tactic(auto)]

#[cfg(test)]
mod tests;
