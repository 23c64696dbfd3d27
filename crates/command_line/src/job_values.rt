//! The job of each subcommand, with its values among the matches of `clap`.
ghost use Rattle.std.specs.Prelude.{◌≡◌, true, All, codes, is_some};
ghost use Rattle.std.specs.String.{string_bytes};
ghost use Rattle.command_line.specs.Jobs.{ReadsJob};
ghost use Rattle.command_line.specs.Values.{NamesFile, values_read};
ghost use Rattle.command_line.specs.Subcommands.{needed_for};
ghost use Rattle.command_line.specs.declared.subcommands.Subcommand.TheVariants as sub;

use crate::asked::{
    agent_in, cell_in, cells_in, has_value, journey_in, no_cells_in, phases_in,
    unfinished_phases_in,
};
use crate::jobs::{Job, JobFault};
use crate::subcommands::Subcommand;
use crate::values::{
    format_in, is_given, log_in, number_if_given, number_in, text_in, value_if_given, value_of,
};
use clap::ArgMatches;
use saga_core::JourneyFilter;
use std::alloc::Global;

/// The highest port.
const MOST_PORT: u16 = 65_535;

/// The most connections that are served in all, where a number is given.
const MOST_CONNECTIONS: u16 = 1000;

/// The job of a subcommand, with its values.
pub(crate) fn job_in(
    alloc: Global,
    subcommand: Subcommand,
    matches: &ArgMatches,
) -> Result<Job, JobFault>
    requires { All (λ id. is_some (values_read matches.now id) ≡ true) (needed_for subcommand) }
    ensures reads { ReadsJob subcommand (values_read matches.now) result }
{
    let file = value_of(alloc, matches, "FILE")?;
    match subcommand {
        Subcommand::Run => Ok(Job::Run { file }),
        Subcommand::Serve => serve_in(alloc, file, matches),
        Subcommand::Recover => Ok(Job::Recover { file }),
        Subcommand::Load => Ok(Job::Load {
            file,
            csv: value_of(alloc, matches, "CSV")?,
            batch: value_of(alloc, matches, "NAME")?,
        }),
        Subcommand::Stock => stock_in(alloc, file, matches),
        Subcommand::Summary => Ok(Job::Summary {
            file,
            filter: cells_in(alloc, matches)?,
            format: format_in(alloc, matches)?,
        }),
        Subcommand::Holders => holders_in(alloc, file, matches),
        Subcommand::Unfinished => Ok(Job::Unfinished {
            file,
            filter: JourneyFilter {
                agent: agent_in(alloc, matches)?,
                phases: unfinished_phases_in(alloc, matches)?,
            },
            format: format_in(alloc, matches)?,
        }),
        Subcommand::Journeys => Ok(Job::Journeys {
            file,
            filter: JourneyFilter {
                agent: agent_in(alloc, matches)?,
                phases: phases_in(alloc, matches)?,
            },
            format: format_in(alloc, matches)?,
        }),
        Subcommand::History => Ok(Job::History {
            file,
            id: value_of(alloc, matches, "ID")?,
            format: format_in(alloc, matches)?,
        }),
        Subcommand::Why => Ok(Job::Why {
            file,
            id: journey_in(alloc, matches)?,
            format: format_in(alloc, matches)?,
        }),
        Subcommand::Migrate => Ok(Job::Migrate { file }),
        Subcommand::Index => Ok(Job::Index { file }),
    }
}

/// Serving requests at a port.
fn serve_in(alloc: Global, file: String, matches: &ArgMatches) -> Result<Job, JobFault>
    requires file { NamesFile (values_read matches.now) (string_bytes file) }
    requires port { is_some (values_read matches.now (codes "PORT")) ≡ true }
    ensures reads { ReadsJob sub.Serve (values_read matches.now) result }
{
    let port = matches.get_str("PORT").unwrap();
    Ok(Job::Serve {
        file,
        port: number_in(alloc, port, "PORT", "--port", MOST_PORT)?,
        connections: number_if_given(alloc, matches, "N", "--connections", MOST_CONNECTIONS)?,
        house: value_if_given(alloc, matches, "PATH")?,
        page: is_given(matches, "PAGE"),
        log: log_in(matches),
        wide: is_given(matches, "WIDE"),
    })
}

/// The stock, or its calendar, which is a text alone.
fn stock_in(alloc: Global, file: String, matches: &ArgMatches) -> Result<Job, JobFault>
    requires file { NamesFile (values_read matches.now) (string_bytes file) }
    ensures reads { ReadsJob sub.Stock (values_read matches.now) result }
{
    let filter = cells_in(alloc, matches)?;
    if is_given(matches, "CALENDAR") {
        text_in(alloc, matches)?;
        return Ok(Job::Calendar { file, filter });
    }
    Ok(Job::Stock {
        file,
        filter,
        format: format_in(alloc, matches)?,
    })
}

/// The journeys that hold places of a cell, or of the cells that are asked for.
fn holders_in(alloc: Global, file: String, matches: &ArgMatches) -> Result<Job, JobFault>
    requires file { NamesFile (values_read matches.now) (string_bytes file) }
    ensures reads { ReadsJob sub.Holders (values_read matches.now) result }
{
    if has_value(matches, "CELL") {
        let cell = cell_in(alloc, matches)?;
        no_cells_in(alloc, matches)?;
        let format = format_in(alloc, matches)?;
        return Ok(Job::Holders { file, cell, format });
    }
    Ok(Job::Holdings {
        file,
        filter: cells_in(alloc, matches)?,
        format: format_in(alloc, matches)?,
    })
}
