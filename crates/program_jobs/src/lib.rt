//! The jobs of the program over a connection to any store of the SQL library: `do_job` does what a `Task` names, from the opening
//! of the desk to the end of the job.
//!
//! A job takes a connection that is in no transaction and has no limit of steps, and returns it so, to be closed, with its
//! `Outcome`. What a job needs beside the store and its streams is asked of an `Environment`: the bytes of an allotment file, and
//! who comes to a desk that serves.
//! `Outcome::report` is the end of the job once its connection is closed.
//!
//! A report recovers nothing and writes nothing to the store: the connection represents what it represented. It is written in
//! blocks, and what reached the output is known at each end.
//!
//! An invocation opens the file, does a task over the connection, and closes it: `do_over_file`. `S: Start` stands for what the
//! file and its log held before. Its contract says which executions go on by the task to what they may hold then (`Ran`), and
//! what was done, read and printed (`Did`). `any_invocations` is the law of any list of these, each by a process of its own, from an
//! absent file on, with crashes at any time.
//!
//! Words: a connection *represents* a state where an opening finds that state in it; a store without tables represents
//! a new desk.
#![tactic(auto, using(desk_sql::proofs::Quieting::quiet_alone, desk_sql::proofs::Quieting::quiet_twice, crate::proofs::EndLemmas::ends_any))]

mod blocks;
mod environment;
mod files;
mod headline;
mod jobs;
mod laws;
mod loading;
mod outcomes;
mod reporting;
mod serving;
mod showing;
mod tasks;

pub use environment::Environment;
pub use files::do_over_file;
pub use headline::{any_invocations, two_reports_over_an_absent_file};
pub use jobs::do_job;
pub use laws::{promises, session_that_crashes_keeps_it};
pub use outcomes::{Count, Outcome};
pub use reporting::{report_over, tell_report};
pub use tasks::{Source, Task};
