//! The report of a job of the command line.
ghost use Rattle.std.specs.Prelude.{◌≡◌};
ghost use Rattle.report_words.specs.Jobs.{report_of};

use command_line::Job;
use commands::{MOST_EVENTS, number_between};
use saga_core::{JourneyReport, MonthReport, Report};

/// The report of a job; `None` for a job that does something else, and for the history of a word that is no number of a
/// journey.
pub fn report_of(job: &Job) -> Option<Report>
    ensures report { result ≡ report_of job.now }
{
    match job {
        Job::Stock { filter, format, .. } => Some(Report::Stock {
            filter: *filter,
            format: *format,
        }),
        Job::Calendar { filter, .. } => Some(Report::Months {
            months: MonthReport::Calendar,
            filter: *filter,
        }),
        Job::Summary { filter, format, .. } => Some(Report::Months {
            months: MonthReport::Summary(*format),
            filter: *filter,
        }),
        Job::Holders { cell, format, .. } => Some(Report::Holders {
            cell: *cell,
            format: *format,
        }),
        Job::Holdings { filter, format, .. } => Some(Report::Holdings {
            filter: *filter,
            format: *format,
        }),
        Job::Unfinished { filter, format, .. } => Some(Report::Journeys {
            name: JourneyReport::Unfinished,
            filter: *filter,
            format: *format,
        }),
        Job::Journeys { filter, format, .. } => Some(Report::Journeys {
            name: JourneyReport::Journeys,
            filter: *filter,
            format: *format,
        }),
        Job::History { id, format, .. } => {
            let id = number_between(id.as_str(), 1, MOST_EVENTS as usize)? as u64;
            Some(Report::History {
                id,
                format: *format,
            })
        }
        Job::Why { id, format, .. } => Some(Report::Why {
            id: *id,
            format: *format,
        }),
        _ => None,
    }
}
