//! Views of a book for agents and the house, and their bodies. A view changes nothing.
ghost use Rattle.allotment_csv.specs.Files.{batch_of};
ghost use Rattle.commands.specs.Orders.{request_of};
ghost use Rattle.desk_http.specs.DemandValues.{AsksFor, ReadsAs};
ghost use Rattle.desk_http.specs.Demands.{SeeCells, SeeHealth, SeeJourney, SeeMetrics, SeePlan, SeeReport, SeeStock, SeeUnfinished, bare, begin_by, load_of, value_in};
ghost use Rattle.desk_http.specs.Pages.{owner_of, own_journey, own_unfinished};
ghost use Rattle.desk_http.specs.Reasons.{Sees, Views};
ghost use Rattle.desk_http.specs.Monitored.{ShowsCounted};
ghost use Rattle.http_pages.specs.Bodies.{agent_data};
ghost use Rattle.http_pages.specs.Pages.{page_said, value_page};
ghost use Rattle.serde_json.specs.Read.{read};
ghost use Rattle.std.specs.Prelude.{◌≡◌, IfOk};

use crate::demands::Unmet;
use crate::doors::Asker;
use crate::plan_texts::plan_in;
use allotment_csv::{CsvFault, read_batch};
use commands::{Command, Name, Refusal};
use http_log::{Metrics, metrics_text};
use http_pages::{
    Body, Page, agent_body, health_body, journey_body, plan_body, refused_page, shown_page,
    unfinished_body,
};
use plan::{Plan, PlanFault, json_is_read_back};
use report_kinds::Reporting;
use reports::stock_text;
use saga_core::{Book, Brief, CellFilter, Format, Listed, Record, Report, ServeFault};
use serde_json::Value;
use std::alloc::{AllocError, Global};
use std::str;

/// The page of a journey that who asks sees. A journey of another agent gets the page of one that does not exist.
pub(crate) fn see_journey<B: Book>(
    alloc: Global,
    book: &mut B,
    asker: &Asker,
    id: u64,
) -> Result<Page, ServeFault>
    ensures sees { Sees B.is_sound B.stands B.leaves B.has_failed B.may_act B.has_reason
        book.old book.new (SeeJourney asker.now id) result }
{
    match book.trace(id)? {
        Some(trace) if asker.sees(&trace.brief.agent) => {
            let body = journey_body(alloc, id, trace.brief.cursor, &trace.items)?;
            Ok(shown_page(Body::Json(body)))
        }
        _ => Ok(refused_page(alloc, &Refusal::NoJourney)?),
    }
}

/// The page of the plan of a journey that who asks sees. A journey of another agent gets the page of one that does not exist.
pub(crate) fn see_plan<B: Book>(
    alloc: Global,
    book: &mut B,
    asker: &Asker,
    id: u64,
) -> Result<Page, ServeFault>
    ensures sees { Sees B.is_sound B.stands B.leaves B.has_failed B.may_act B.has_reason
        book.old book.new (SeePlan asker.now id) result }
{
    let Some(journey) = own_journey(book, asker, id)? else {
        return Ok(refused_page(alloc, &Refusal::NoJourney)?);
    };
    let body = plan_body(alloc, &journey.plan)?;
    Ok(shown_page(Body::Json(body)))
}

/// The journey of this number, if who asks sees it.
pub(crate) fn own_journey<B: Book>(
    book: &mut B,
    asker: &Asker,
    id: u64,
) -> Result<Option<Record>, ServeFault>
    ensures journey { Views B.is_sound B.stands B.leaves B.has_failed B.may_act B.has_reason
        book.old book.new
        (λ s found. found ≡ own_journey s.ledger asker.now id) result }
{
    match book.journey(id)? {
        Some(journey) if asker.sees(&journey.agent) => Ok(Some(journey)),
        _ => Ok(None),
    }
}

/// The page of the unfinished journeys that who asks sees, by rising number.
pub(crate) fn see_unfinished<B: Book>(
    alloc: Global,
    book: &mut B,
    asker: &Asker,
) -> Result<Page, ServeFault>
    ensures sees { Sees B.is_sound B.stands B.leaves B.has_failed B.may_act B.has_reason
        book.old book.new (SeeUnfinished asker.now) result }
{
    let briefs = own_unfinished(book, asker)?;
    let body = unfinished_body(alloc, asker.owners(), &briefs)?;
    Ok(shown_page(Body::Json(body)))
}

/// The unfinished journeys that who asks sees, by rising number.
fn own_unfinished<B: Book>(book: &mut B, asker: &Asker) -> Result<Vec<Brief>, ServeFault>
    ensures briefs { Views B.is_sound B.stands B.leaves B.has_failed B.may_act B.has_reason
        book.old book.new
        (λ s briefs. briefs.items ≡ own_unfinished s.ledger asker.now) result }
{
    let mut briefs = book.unfinished()?;
    briefs.retain(|brief| asker.sees(&brief.agent));
    Ok(briefs)
}

/// The page of the stock.
pub(crate) fn see_stock<B: Book>(alloc: Global, book: &mut B) -> Result<Page, ServeFault>
    ensures sees { Sees B.is_sound B.stands B.leaves B.has_failed B.may_act B.has_reason
        book.old book.new SeeStock result }
{
    let rows = book.stock()?;
    let mut text = Vec::new(alloc);
    match stock_text(alloc, Format::Text, &mut Listed::new(&rows), &mut text) {
        Ok(_) => Ok(shown_page(Body::Text(text))),
        Err(_) => Err(ServeFault::Memory),
    }
}

/// The page of the cells of the stock that a filter lets through, which the book reads as the report of these.
pub(crate) fn see_cells<B: Reporting>(
    alloc: Global,
    book: &mut B,
    filter: &CellFilter,
) -> Result<Page, ServeFault>
    ensures sees { Sees B.is_sound B.stands B.leaves B.has_failed B.may_act B.has_reason
        book.old book.new (SeeCells filter.now) result }
{
    let report = Report::Stock {
        filter: *filter,
        format: Format::Text,
    };
    see_report(alloc, book, &report)
}

/// The page of a report. That of a journey that does not exist is refused.
pub(crate) fn see_report<B: Reporting>(
    alloc: Global,
    book: &mut B,
    report: &Report,
) -> Result<Page, ServeFault>
    ensures sees { Sees B.is_sound B.stands B.leaves B.has_failed B.may_act B.has_reason
        book.old book.new (SeeReport report.now) result }
{
    let found = book.report(report)?;
    match found {
        Some(text) => Ok(shown_page(Body::Text(text))),
        None => Ok(refused_page(alloc, &Refusal::NoJourney)?),
    }
}

/// The page of how many events, journeys and unfinished journeys there are.
pub(crate) fn see_health<B: Book>(alloc: Global, book: &mut B) -> Result<Page, ServeFault>
    ensures sees { Sees B.is_sound B.stands B.leaves B.has_failed B.may_act B.has_reason
        book.old book.new SeeHealth result }
{
    let counts = book.counts()?;
    let body = health_body(alloc, counts)?;
    Ok(shown_page(Body::Json(body)))
}

/// The page of how many events, journeys and unfinished journeys there are, and of what was counted.
pub(crate) fn see_metrics<B: Book>(
    alloc: Global,
    metrics: &Metrics,
    book: &mut B,
) -> Result<Page, ServeFault>
    ensures sees { Sees B.is_sound B.stands B.leaves B.has_failed B.may_act B.has_reason
        book.old book.new SeeMetrics result }
    ensures counted { IfOk result (λ page. ShowsCounted metrics.now (page_said page)) }
{
    let counts = book.counts()?;
    let body = metrics_text(alloc, counts, metrics)?;
    Ok(shown_page(Body::Metrics(body)))
}

/// The page of who asks: an agent, or the house as the agent whose journeys are its own. The only fault is out of memory.
pub(crate) fn see_agent(alloc: Global, asker: &Asker) -> Result<Page, AllocError>
    ensures page { IfOk result (λ page.
        page_said page ≡ value_page (agent_data (owner_of asker.now))) }
{
    let body = agent_body(alloc, asker.owner())?;
    Ok(shown_page(Body::Json(body)))
}

/// The load of a batch of this name, whose rows are a body.
pub(crate) fn load(alloc: Global, name: Name, body: &[u8]) -> Result<Command, Unmet>
    ensures load { AsksFor (load_of (batch_of name body.now)) result }
{
    match read_batch(alloc, name.as_str(), body) {
        Ok(batch) => Ok(Command::Load(batch)),
        Err(CsvFault::BadBody) => Err(Unmet::from(Refusal::BadBody)),
        Err(CsvFault::BadCsv { row, cause }) => Err(Unmet::from(Refusal::BadCsv { row, cause })),
        Err(CsvFault::Memory) => Err(Unmet::Memory),
    }
}

/// The begin of a journey, whose plan is the JSON of a body.
pub(crate) fn begin(alloc: Global, body: &[u8]) -> Result<Command, Unmet>
    ensures begin { AsksFor (begin_by (value_in body.now)) result }
{
    let Ok(text) = str::from_utf8(body) else {
        return Err(Unmet::from(Refusal::BadBody));
    };
    json_is_read_back();
    match plan_in(alloc, text) {
        Some(plan) => Ok(Command::Begin(plan)),
        None => begin_of(alloc, text),
    }
}

/// The begin of a journey, whose plan is that of the JSON value of a text, or what is wrong with the text.
fn begin_of(alloc: Global, text: &str) -> Result<Command, Unmet>
    ensures begin { AsksFor (begin_by (read text.now)) result }
{
    let Some(value) = value_of(alloc, text)? else {
        return Err(Unmet::from(Refusal::BadBody));
    };
    match Plan::from_json(alloc, &value) {
        Ok(plan) => Ok(Command::Begin(plan)),
        Err(PlanFault::Bad(bad)) => Err(Unmet::from(Refusal::BadPlan(bad))),
        Err(PlanFault::Memory) => Err(Unmet::Memory),
    }
}

/// The JSON value of a text. Returns `None` if the text is not JSON.
fn value_of(alloc: Global, text: &str) -> Result<Option<Value>, AllocError>
    ensures value { IfOk result (ReadsAs (read text.now)) }
{
    match Value::from_str(alloc, text) {
        Ok(value) => Ok(Some(value)),
        Err(error) if error.is_memory() => Err(AllocError),
        Err(_) => Ok(None),
    }
}

/// The command, if the body is empty.
pub(crate) fn bare(body: &[u8], command: Command) -> Result<Command, Unmet>
    ensures bare { AsksFor (bare body.now (request_of command)) result }
{
    if !body.is_empty() {
        return Err(Unmet::from(Refusal::BadBody));
    }
    Ok(command)
}
