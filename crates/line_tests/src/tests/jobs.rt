//! The jobs of the words of the command line.
use crate::tests::desks::reads;
use command_line::{Call, Job, JobFault, LogForm, Socket, call_of};
use report_words::target_of;
use saga_core::{CellFilter, Format, JourneyFilter, JourneyState, Phases};
use std::alloc::{AllocError, Global};
use std::test::Fail;

/// The words of a text in a table, as the program gets them.
pub fn words_of(alloc: Global, text: &str) -> Result<Vec<String>, AllocError> {
    let mut words = Vec::new(alloc);
    for word in text.split('|') {
        words.push(String::from_str(alloc, word)?)?;
    }
    Ok(words)
}

/// The text in the table of a desk that serves: without a number of connections, or a path, there is a dash for it. Where
/// it logs, that follows.
fn served_text(
    alloc: Global,
    file: &str,
    port: u16,
    connections: Option<u16>,
    house: Option<String>,
    page: bool,
    log: Option<LogForm>,
    wide: bool,
) -> Result<String, AllocError> {
    let count = match connections {
        Some(count) => format!(in alloc; "{count}")?,
        None => String::from_str(alloc, "-")?,
    };
    let house = house.as_ref().map_or("-", |path| path.as_str());
    let page = if page { "|page" } else { "" };
    let log = match log {
        None => "",
        Some(LogForm::Plain) => "|log",
        Some(LogForm::Timed) => "|log with times",
    };
    let wide = if wide { "|wide" } else { "" };
    format!(in alloc; "serve|{file}|{port}|{count}|{house}{page}{log}{wide}")
}

/// A format in the table: nothing for a text.
fn shown(format: Format) -> &'static str {
    match format {
        Format::Text => "",
        Format::Json => "|json",
        Format::Csv => "|csv",
    }
}

/// The text in the table of a stock report: each value that is asked for follows.
fn stock_asked(
    alloc: Global,
    name: &str,
    file: &str,
    filter: CellFilter,
    format: Format,
) -> Result<String, AllocError> {
    let mut text = format!(in alloc; "{name}|{file}{}", shown(format))?;
    if let Some(kind) = filter.kind {
        write!(text, "|kind {}", kind.word())?;
    }
    if let Some(supplier) = filter.supplier {
        write!(text, "|supplier {supplier}")?;
    }
    if let Some(product) = filter.product {
        write!(text, "|product {product}")?;
    }
    if let Some(from) = filter.from {
        write!(text, "|from {from}")?;
    }
    if let Some(to) = filter.to {
        write!(text, "|to {to}")?;
    }
    Ok(text)
}

/// The text in the table of a report of journeys: the agent follows if one is asked for, and the phases if they are not
/// those of every journey of the report.
fn journeys_asked(
    alloc: Global,
    name: &str,
    file: &str,
    filter: JourneyFilter,
    format: Format,
) -> Result<String, AllocError> {
    let agent = filter.agent.as_ref().map_or("-", |agent| agent.as_str());
    let phases = match filter.phases {
        Phases::All => "all",
        Phases::Unfinished => "unfinished",
        Phases::Only(JourneyState::Run) => "run",
        Phases::Only(JourneyState::Back) => "back",
        Phases::Only(JourneyState::Ended) => "ended",
        Phases::Only(JourneyState::Undone) => "undone",
    };
    format!(in alloc; "{name}|{file}{}|{agent} {phases}", shown(format))
}

/// The job of a call over a file as a text in the table: the job with its values.
fn job_text(alloc: Global, job: Job) -> Result<String, AllocError> {
    match job {
        Job::Run { file } => format!(in alloc; "run|{file}"),
        Job::Serve {
            file,
            port,
            connections,
            house,
            page,
            log,
            wide,
        } => served_text(
            alloc,
            file.as_str(),
            port,
            connections,
            house,
            page,
            log,
            wide,
        ),
        Job::Recover { file } => format!(in alloc; "recover|{file}"),
        Job::Load { file, csv, batch } => format!(in alloc; "load|{file}|{csv}|{batch}"),
        Job::Stock {
            file,
            filter,
            format,
        } => stock_asked(alloc, "stock", file.as_str(), filter, format),
        Job::Summary {
            file,
            filter,
            format,
        } => stock_asked(alloc, "summary", file.as_str(), filter, format),
        Job::Calendar { file, filter } => {
            stock_asked(alloc, "calendar", file.as_str(), filter, Format::Text)
        }
        Job::Holders { file, cell, format } => format!(in alloc;
            "holders|{file}|{cell}{}",
            shown(format)
        ),
        Job::Holdings {
            file,
            filter,
            format,
        } => stock_asked(alloc, "holdings", file.as_str(), filter, format),
        Job::Unfinished {
            file,
            filter,
            format,
        } => journeys_asked(alloc, "unfinished", file.as_str(), filter, format),
        Job::Journeys {
            file,
            filter,
            format,
        } => journeys_asked(alloc, "journeys", file.as_str(), filter, format),
        Job::History { file, id, format } => format!(in alloc;
            "history|{file}|{id}{}",
            shown(format)
        ),
        Job::Why { file, id, format } => format!(in alloc; "why|{file}|{id}{}", shown(format)),
        Job::Migrate { file } => format!(in alloc; "migrate|{file}"),
        Job::Index { file } => format!(in alloc; "index|{file}"),
        Job::Version => String::from_str(alloc, "version"),
    }
}

/// What is asked of the desk at a socket as a text in the table: its target, if the words have one.
fn target_text(alloc: Global, socket: &Socket) -> Result<String, AllocError> {
    match target_of(alloc, socket.words.as_slice())? {
        Some(target) => format!(in alloc; "at|{}|{target}", socket.path),
        None => format!(in alloc; "at|{}|nothing", socket.path),
    }
}

/// The call of words as a text in the table: the job, or the socket and what is asked for there, or only the usage.
pub fn asked(alloc: Global, words: Vec<String>) -> Result<String, AllocError> {
    match call_of(alloc, words) {
        Ok(call) => {
            let Call { job, socket, .. } = call;
            match socket {
                Some(socket) => target_text(alloc, &socket),
                None => job_text(alloc, job),
            }
        }
        Err(JobFault::Usage(usage)) => Ok(usage),
        Err(JobFault::Memory) => Err(AllocError),
    }
}

// the words, separated by bars, and the job with its values; a bad number of a journey is no usage
#[rattlefmt::skip]
const JOBS: [(&str, &str); 97] = [
    ("run|x.db",                    "run|x.db"),
    ("run|a b/x.db",                "run|a b/x.db"),
    ("run|--|-x.db",                "run|-x.db"),
    ("run|-",                       "run|-"),
    ("serve|x.db|--port|8099|--connections|2",        "serve|x.db|8099|2|-"),
    ("serve|--connections|2|x.db|--port|8099",        "serve|x.db|8099|2|-"),
    ("serve|--port=8099|--connections=2|a b/x.db",    "serve|a b/x.db|8099|2|-"),
    ("serve|--port|1|--connections|1|--|-x.db",       "serve|-x.db|1|1|-"),
    ("serve|x.db|--port|65535|--connections|1000",    "serve|x.db|65535|1000|-"),
    ("serve|x.db|--port|65534|--connections|999",     "serve|x.db|65534|999|-"),
    ("serve|-|--port|10|--connections|100",           "serve|-|10|100|-"),
    ("serve|x.db|--port|8099",                        "serve|x.db|8099|-|-"),
    ("serve|x.db|--port|8099|--house|d.sock",         "serve|x.db|8099|-|d.sock"),
    ("serve|--house=a b/d|x.db|--connections|2|--port|1", "serve|x.db|1|2|a b/d"),
    ("serve|x.db|--port|8099|--page",                 "serve|x.db|8099|-|-|page"),
    ("serve|--page|--house|d.sock|--port|8099|x.db",  "serve|x.db|8099|-|d.sock|page"),
    ("serve|x.db|--port|8099|--log",                  "serve|x.db|8099|-|-|log"),
    ("serve|--log|x.db|--house|d|--port|1",           "serve|x.db|1|-|d|log"),
    ("serve|x.db|--log=time|--port|8099",             "serve|x.db|8099|-|-|log with times"),
    ("serve|--log=time|x.db|--house|d|--port|1",      "serve|x.db|1|-|d|log with times"),
    ("serve|--log|--port|1|./--log=time",             "serve|./--log=time|1|-|-|log"),
    ("serve|--log|--port|1|--|--log=time",            "serve|--log=time|1|-|-|log"),
    ("run|--|--log=time",           "run|--log=time"),
    ("serve|x.db|--port|8099|--wide",                 "serve|x.db|8099|-|-|wide"),
    ("serve|--wide|--log|x.db|--port|1|--page",       "serve|x.db|1|-|-|page|log|wide"),
    ("recover|x.db",                "recover|x.db"),
    ("recover|a b/x.db",            "recover|a b/x.db"),
    ("recover|--|-x.db",            "recover|-x.db"),
    ("recover|-",                   "recover|-"),
    ("stock|x.db",                  "stock|x.db"),
    ("stock|a b/x.db",              "stock|a b/x.db"),
    ("stock|--|-x.db",              "stock|-x.db"),
    ("stock|-",                     "stock|-"),
    ("unfinished|x.db",             "unfinished|x.db|- unfinished"),
    ("unfinished|a b/x.db",         "unfinished|a b/x.db|- unfinished"),
    ("unfinished|--|-x.db",         "unfinished|-x.db|- unfinished"),
    ("unfinished|-",                "unfinished|-|- unfinished"),
    ("load|x.db|a.csv|--batch|b1",  "load|x.db|a.csv|b1"),
    ("load|--batch|b1|x.db|a.csv",  "load|x.db|a.csv|b1"),
    ("load|x.db|--batch=b-1|a.csv", "load|x.db|a.csv|b-1"),
    ("load|a.csv|x.db|--batch|B 1", "load|a.csv|x.db|B 1"),
    ("history|x.db|12",             "history|x.db|12"),
    ("history|x.db|012",            "history|x.db|012"),
    ("history|x.db|one",            "history|x.db|one"),
    ("stock|x.db|--format|text",    "stock|x.db"),
    ("stock|x.db|--format|json",    "stock|x.db|json"),
    ("stock|--format=csv|x.db",     "stock|x.db|csv"),
    ("unfinished|x.db|--format|csv", "unfinished|x.db|csv|- unfinished"),
    ("unfinished|--format|json|--|-x.db", "unfinished|-x.db|json|- unfinished"),
    ("history|x.db|12|--format|csv", "history|x.db|12|csv"),
    ("history|--format=json|x.db|one", "history|x.db|one|json"),
    ("migrate|x.db",                "migrate|x.db"),
    ("index|x.db",                  "index|x.db"),
    ("stock|x.db|--kind|room",      "stock|x.db|kind room"),
    ("stock|--supplier|AL|x.db",    "stock|x.db|supplier AL"),
    ("stock|x.db|--product=12345678", "stock|x.db|product 12345678"),
    ("stock|x.db|--to|2099-12-31|--from|2000-01-01", "stock|x.db|from 2000-01-01|to 2099-12-31"),
    ("stock|x.db|--kind|cover|--supplier|INN|--product|DBL|--from|2030-06-01|--to|2030-06-30|--format|csv",
        "stock|x.db|csv|kind cover|supplier INN|product DBL|from 2030-06-01|to 2030-06-30"),
    ("summary|x.db",                "summary|x.db"),
    ("summary|--|-x.db",            "summary|-x.db"),
    ("summary|x.db|--kind|flight|--to|2030-06-30|--format|json", "summary|x.db|json|kind flight|to 2030-06-30"),
    ("stock|x.db|--calendar",       "calendar|x.db"),
    ("stock|--calendar|--|-x.db",   "calendar|-x.db"),
    ("stock|x.db|--calendar|--format|text", "calendar|x.db"),
    ("stock|x.db|--kind|room|--calendar|--from|2030-06-01", "calendar|x.db|kind room|from 2030-06-01"),
    ("holders|x.db|R/INN/DBL/2030-06-01", "holders|x.db|R/INN/DBL/2030-06-01"),
    ("holders|--format|json|x.db|F/AL/A1/2099-12-31", "holders|x.db|F/AL/A1/2099-12-31|json"),
    ("holders|--|-x.db|C/Z/Z/2000-01-01", "holders|-x.db|C/Z/Z/2000-01-01"),
    ("holders|x.db",                "holdings|x.db"),
    ("holders|x.db|--kind|room|--supplier|INN|--from|2030-06-01|--to|2030-06-01|--format|csv",
        "holdings|x.db|csv|kind room|supplier INN|from 2030-06-01|to 2030-06-01"),
    ("why|x.db|1",                  "why|x.db|1"),
    ("why|x.db|999999999999|--format|csv", "why|x.db|999999999999|csv"),
    ("why|--|-x.db|12",             "why|-x.db|12"),
    ("unfinished|x.db|--agent|ann|--state|back", "unfinished|x.db|ann back"),
    ("unfinished|x.db|--state|run", "unfinished|x.db|- run"),
    ("journeys|x.db",               "journeys|x.db|- all"),
    ("journeys|x.db|--state|undone|--format|json", "journeys|x.db|json|- undone"),
    ("journeys|--agent|a234567890123456|x.db|--state|ended", "journeys|x.db|a234567890123456 ended"),
    ("journeys|--|-x.db",           "journeys|-x.db|- all"),
    ("stock|--at|d.sock",           "at|d.sock|/reports/stock"),
    ("stock|--calendar|--at=a b/d|--kind|room", "at|a b/d|/reports/stock?--calendar&--kind&room"),
    ("summary|--at=-d|--to|2030-06-30", "at|-d|/reports/summary?--to&2030-06-30"),
    ("holders|--at|d|R/INN/DBL/2030-06-01|--format|json", "at|d|/reports/holders?R/INN/DBL/2030-06-01&--format&json"),
    ("holders|--supplier|INN|--at|d", "at|d|/reports/holders?--supplier&INN"),
    ("holders|--at|d|--|C/Z/Z/2000-01-01", "at|d|/reports/holders?--&C/Z/Z/2000-01-01"),
    ("unfinished|--at|d|--state|run", "at|d|/reports/unfinished?--state&run"),
    ("journeys|--agent|ann|--at|d|--format=csv", "at|d|/reports/journeys?--agent&ann&--format=csv"),
    ("history|12|--at|d",           "at|d|/reports/history?12"),
    ("history|--at|d|one",          "at|d|/reports/history?one"),
    ("history|--at|d|1&2",          "at|d|nothing"),
    ("history|--at|d|1?2",          "at|d|nothing"),
    ("why|--at|d|7",                "at|d|/reports/why?7"),
    ("stock|--|--at",               "stock|--at"),
    ("run|--|--at",                 "run|--at"),
    ("--version",                   "version"),
    ("-V",                          "version"),
    ("--version|run|x.db",          "version"),
];

#[test]
fn words_name_a_job_with_its_values(rt: HostRuntime) -> Result<(), Fail> {
    for &(words, expected) in &JOBS {
        let found = asked(rt.alloc(), words_of(rt.alloc(), words)?)?;
        reads(&rt, words, found.as_bytes(), expected);
    }
    Ok(())
}
