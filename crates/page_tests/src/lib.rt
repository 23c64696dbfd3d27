//! Tests of what is shown: routes, refusals and pages of `http_pages`, with values from outside; of `http_log` the lines of the
//! log, and what a monitor is shown; and of `Watched` of `program_ends` what a terminal is shown of an input.
#![tactic(auto)]

#[cfg(test)]
mod tests;
