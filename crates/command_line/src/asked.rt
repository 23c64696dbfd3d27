//! The values that ask for cells and journeys: for those of a filter, or for one.
ghost use Rattle.command_line.specs.Values.{values_read};
ghost use Rattle.std.specs.Prelude.{◌≡◌, true, ⊤, codes, is_some};
ghost use Rattle.allotment.specs.Nights.{night_in};
ghost use Rattle.allotment.specs.Texts.{kind_of_word};
ghost use Rattle.command_line.specs.Filters.{agent_named, asks_for_cells, cell_asked, code_named, has_bad_cells, journey_asked, phases_in, spelled, unfinished_in, HasCells};
ghost use Rattle.command_line.specs.Jobs.{has_socket, Reads, ReadsOne};

use crate::errors::{no_option, no_value, no_value_of};
use crate::jobs::JobFault;
use crate::subcommands::Subcommand;
use allotment::{Cell, Code, Kind, Night};
use clap::ArgMatches;
use commands::{Agent, MOST_EVENTS, number_between};
use saga_core::{CellFilter, JourneyState, Phases};
use std::alloc::Global;

/// The cells that are asked for.
pub(crate) fn cells_in(alloc: Global, matches: &ArgMatches) -> Result<CellFilter, JobFault>
    ensures reads { Reads (HasCells (values_read matches.now))
        (has_bad_cells (values_read matches.now)) result }
{
    let kind = kind_in(alloc, matches)?;
    let supplier = code_in(alloc, matches, "SUPPLIER", "--supplier")?;
    let product = code_in(alloc, matches, "PRODUCT", "--product")?;
    let from = night_in(alloc, matches, "FROM", "--from")?;
    let to = night_in(alloc, matches, "TO", "--to")?;
    Ok(CellFilter {
        kind,
        supplier,
        product,
        from,
        to,
    })
}

/// The one cell that is asked for. The precondition says that there is a value.
pub(crate) fn cell_in(alloc: Global, matches: &ArgMatches) -> Result<Cell, JobFault>
    requires { is_some (values_read matches.now (codes "CELL")) ≡ true }
    ensures reads { ReadsOne (cell_asked (values_read matches.now)) result }
{
    let word = matches.get_str("CELL").unwrap();
    match Cell::parse(word) {
        Some(cell) => Ok(cell),
        None => Err(no_value(alloc, word, "<CELL>", "a cell, as R/INN/DBL/2030-06-01")),
    }
}

/// Whether there is a value of this name.
pub(crate) fn has_value(matches: &ArgMatches, id: &str) -> bool
    ensures given { result ≡ is_some (values_read matches.now id.now) }
{
    match matches.get_str(id) {
        Some(_) => true,
        None => false,
    }
}

/// The first option of those that ask for cells that is given, if one is.
fn cells_option<'a>(matches: &ArgMatches) -> Option<&'a str>
    ensures given { is_some result ≡ asks_for_cells (values_read matches.now) }
{
    if has_value(matches, "KIND") {
        Some("--kind <KIND>")
    } else if has_value(matches, "SUPPLIER") {
        Some("--supplier <SUPPLIER>")
    } else if has_value(matches, "PRODUCT") {
        Some("--product <PRODUCT>")
    } else if has_value(matches, "FROM") {
        Some("--from <FROM>")
    } else if has_value(matches, "TO") {
        Some("--to <TO>")
    } else {
        None
    }
}

/// Refuses options that ask for cells, beside one cell.
pub(crate) fn no_cells_in(alloc: Global, matches: &ArgMatches) -> Result<(), JobFault>
    ensures reads { Reads (λ _. ⊤) (asks_for_cells (values_read matches.now)) result }
{
    match cells_option(matches) {
        Some(option) => Err(no_option(alloc, option, "[CELL]")),
        None => Ok(()),
    }
}

/// Refuses a socket beside the file of a report.
pub(crate) fn no_socket_in(
    alloc: Global,
    subcommand: Subcommand,
    matches: &ArgMatches,
) -> Result<(), JobFault>
    ensures reads { Reads (λ _. ⊤) (has_socket subcommand (values_read matches.now)) result }
{
    if subcommand.is_report() && has_value(matches, "PATH") {
        return Err(no_option(alloc, "--at <PATH>", "<FILE>"));
    }
    Ok(())
}

/// The number of the one journey that is asked for. The precondition says that there is a value.
pub(crate) fn journey_in(alloc: Global, matches: &ArgMatches) -> Result<u64, JobFault>
    requires { is_some (values_read matches.now (codes "ID")) ≡ true }
    ensures reads { ReadsOne (journey_asked (values_read matches.now)) result }
{
    let word = matches.get_str("ID").unwrap();
    match number_between(word, 1, MOST_EVENTS as usize) {
        Some(id) => Ok(id as u64),
        None => Err(no_value(alloc, word, "<ID>", "a number from 1 to 999999999999")),
    }
}

/// The kind that is asked for, if one is.
fn kind_in(alloc: Global, matches: &ArgMatches) -> Result<Option<Kind>, JobFault>
    ensures reads { ReadsOne (spelled kind_of_word (values_read matches.now (codes "KIND")))
        result }
{
    let Some(word) = matches.get_str("KIND") else {
        return Ok(None);
    };
    match Kind::from_word(word) {
        Some(kind) => Ok(Some(kind)),
        None => Err(no_value(
            alloc,
            word,
            "--kind <KIND>",
            "flight, room, transfer or cover",
        )),
    }
}

/// The supplier or product under this name, if one is asked for.
fn code_in(
    alloc: Global,
    matches: &ArgMatches,
    id: &str,
    option: &str,
) -> Result<Option<Code>, JobFault>
    ensures reads { ReadsOne (spelled code_named (values_read matches.now id.now)) result }
{
    let Some(word) = matches.get_str(id) else {
        return Ok(None);
    };
    match Code::parse(word) {
        Some(code) => Ok(Some(code)),
        None => Err(no_value_of(alloc, word, option, id, "1 to 8 of A-Z and 0-9")),
    }
}

/// The night under this name, if one is asked for.
fn night_in(
    alloc: Global,
    matches: &ArgMatches,
    id: &str,
    option: &str,
) -> Result<Option<Night>, JobFault>
    ensures reads { ReadsOne (spelled night_in (values_read matches.now id.now)) result }
{
    let Some(word) = matches.get_str(id) else {
        return Ok(None);
    };
    match Night::parse(word) {
        Ok(night) => Ok(Some(night)),
        Err(_) => Err(no_value_of(
            alloc,
            word,
            option,
            id,
            "a day from 2000-01-01 to 2099-12-31",
        )),
    }
}

/// The agent who is asked for, if one is.
pub(crate) fn agent_in(alloc: Global, matches: &ArgMatches) -> Result<Option<Agent>, JobFault>
    ensures reads { ReadsOne (spelled agent_named (values_read matches.now (codes "AGENT")))
        result }
{
    let Some(word) = matches.get_str("AGENT") else {
        return Ok(None);
    };
    match Agent::parse(word) {
        Some(agent) => Ok(Some(agent)),
        None => Err(no_value(alloc, word, "--agent <AGENT>", "1 to 16 of a-z and 0-9")),
    }
}

/// The phases of the state that is asked for; all phases if none is.
pub(crate) fn phases_in(alloc: Global, matches: &ArgMatches) -> Result<Phases, JobFault>
    ensures reads { ReadsOne (phases_in (values_read matches.now (codes "STATE"))) result }
{
    let Some(word) = matches.get_str("STATE") else {
        return Ok(Phases::All);
    };
    match JourneyState::from_word(word) {
        Some(state) => Ok(Phases::Only(state)),
        None => Err(no_value(alloc, word, "--state <STATE>", "run, back, ended or undone")),
    }
}

/// The same of unfinished journeys, which have two states.
pub(crate) fn unfinished_phases_in(alloc: Global, matches: &ArgMatches) -> Result<Phases, JobFault>
    ensures reads { ReadsOne (unfinished_in (values_read matches.now (codes "STATE"))) result }
{
    let Some(word) = matches.get_str("STATE") else {
        return Ok(Phases::Unfinished);
    };
    match JourneyState::from_word(word) {
        Some(JourneyState::Run) => Ok(Phases::Only(JourneyState::Run)),
        Some(JourneyState::Back) => Ok(Phases::Only(JourneyState::Back)),
        _ => Err(no_value(alloc, word, "--state <STATE>", "run or back")),
    }
}
