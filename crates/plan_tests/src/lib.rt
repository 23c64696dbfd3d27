//! Tests of `allotment` and `plan`: wants and plans with their texts, places, and where a journey turns, with
//! values from outside.
#![tactic(auto)]

#[cfg(test)]
mod tests;
