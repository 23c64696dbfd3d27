//! Tests of `commands` and `allotment_csv`: the texts of commands and replies, and allotment files, with values from
//! outside.
#![tactic(auto)]

#[cfg(test)]
mod tests;
