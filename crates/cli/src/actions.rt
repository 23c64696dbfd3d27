//! What a call of the program asks for.
ghost use Rattle.std.specs.Prelude.{◌≡◌, IfErr, IfOk};
ghost use Rattle.std.specs.String.{string_bytes};
ghost use Rattle.cli.specs.Actions.{IsActionOf, IsLoadOf, IsOfLoad, IsReportAction, IsServedAs, IsSourceOf, file_of, form_of};

use command_line::{Call, Job, LogForm as Form, Socket};
use http_sockets::LogForm;
use program_jobs::{Source, Task};
use report_words::report_of;
use saga_core::Report;
use std::alloc::AllocError;

/// What is done for a call.
#[derive(Drop)]
pub enum Action {
    /// A task over the database in the file of the call.
    Do(Task),
    /// The desk that serves at the socket of the call is asked for a report, which is printed.
    Ask,
    /// Words that ask for no report are refused.
    Refuse,
    /// The version of the program is printed.
    ShowVersion,
}

/// How a desk serves, beside its port.
#[derive(Clone, Copy)]
pub(crate) struct Served<'a> {
    /// How many connections there are in all, if that is limited.
    pub(crate) connections: Option<u16>,
    /// The path of the Unix socket, if there is one.
    pub(crate) house: Option<&'a str>,
    /// Whether the page for browsers is served at the port.
    pub(crate) page: bool,
    /// How the log is written on the standard error of the host, if it is.
    pub(crate) log: Option<LogForm>,
    /// Whether HTTP is read as libraries, proxies and pools speak it.
    pub(crate) wide: bool,
}

/// What is done for a call. Memory may run out for the words of a load alone.
pub(crate) fn action_of(call: &Call) -> Result<Action, AllocError>
    ensures action { IfOk result (IsActionOf call.now.job call.now.socket) }
    ensures memory { IfErr result (λ _. IsOfLoad call.now.job) }
{
    match &call.job {
        Job::Run { .. } => Ok(Action::Do(Task::Run)),
        Job::Serve { port, .. } => Ok(Action::Do(Task::Serve { port: *port })),
        Job::Recover { .. } => Ok(Action::Do(Task::Recover)),
        Job::Load { csv, batch, .. } => Ok(Action::Do(load_of(csv, batch)?)),
        Job::Stock { .. }
        | Job::Calendar { .. }
        | Job::Summary { .. }
        | Job::Holders { .. }
        | Job::Holdings { .. }
        | Job::Unfinished { .. }
        | Job::Journeys { .. }
        | Job::History { .. }
        | Job::Why { .. } => Ok(report_action(report_of(&call.job), &call.socket)),
        Job::Migrate { .. } => Ok(Action::Do(Task::Migrate)),
        Job::Index { .. } => Ok(Action::Do(Task::Index)),
        Job::Version => Ok(Action::ShowVersion),
    }
}

/// The load of an allotment file under a name.
fn load_of(csv: &String, batch: &String) -> Result<Task, AllocError>
    ensures load { IfOk result (IsLoadOf (string_bytes csv.now) (string_bytes batch.now)) }
{
    Ok(Task::Load {
        source: source_of(csv)?,
        batch: batch.clone()?,
    })
}

/// Where the bytes of an allotment file come from: `-` is the input.
fn source_of(csv: &String) -> Result<Source, AllocError>
    ensures source { IfOk result (IsSourceOf (string_bytes csv.now)) }
{
    match csv.as_str() {
        "-" => Ok(Source::Input),
        _ => Ok(Source::File(csv.clone()?)),
    }
}

/// What is done for the words of a report: it is written over the file, or the desk at the socket is asked for it in place of
/// that. Words that ask for none are refused before either.
fn report_action(report: Option<Report>, socket: &Option<Socket>) -> Action
    ensures action { IsReportAction report socket.now result }
{
    match (report, socket) {
        (None, _) => Action::Refuse,
        (Some(report), None) => Action::Do(Task::Report(report)),
        (Some(_), Some(_)) => Action::Ask,
    }
}

/// The file of a job; the empty text for one that has none.
pub(crate) fn file_of(job: &Job) -> &str
    ensures file { result.now ≡ file_of job.now }
{
    match job {
        Job::Run { file }
        | Job::Serve { file, .. }
        | Job::Recover { file }
        | Job::Load { file, .. }
        | Job::Stock { file, .. }
        | Job::Calendar { file, .. }
        | Job::Summary { file, .. }
        | Job::Holders { file, .. }
        | Job::Holdings { file, .. }
        | Job::Unfinished { file, .. }
        | Job::Journeys { file, .. }
        | Job::History { file, .. }
        | Job::Why { file, .. }
        | Job::Migrate { file }
        | Job::Index { file } => file.as_str(),
        Job::Version => "",
    }
}

/// How the desk of a job serves; without options for one that serves nobody.
pub(crate) fn served_of(job: &Job) -> Served<'_>
    ensures served { IsServedAs job.now result }
{
    match job {
        Job::Serve {
            connections,
            house,
            page,
            log,
            wide,
            ..
        } => Served {
            connections: *connections,
            house: house.as_ref().map(|path| path.as_str()),
            page: *page,
            log: form_of(*log),
            wide: *wide,
        },
        _ => Served {
            connections: None,
            house: None,
            page: false,
            log: None,
            wide: false,
        },
    }
}

/// How the log is written, if it is asked for.
fn form_of(log: Option<Form>) -> Option<LogForm>
    ensures form { result ≡ form_of log }
{
    match log {
        Some(Form::Plain) => Some(LogForm::Plain),
        Some(Form::Timed) => Some(LogForm::Timed),
        None => None,
    }
}
