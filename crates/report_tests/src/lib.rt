//! Tests of `reports`: the texts, with values from outside, and what is written before a source or a writer fails.
#![tactic(auto)]

#[cfg(test)]
mod tests;
