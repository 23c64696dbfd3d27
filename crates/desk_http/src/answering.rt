//! The page of a message.
ghost use Rattle.std.specs.Prelude.{◌≡◌, ◌&&◌, ◌||◌, not, ℕ, List, None, is_some, IfOk};
ghost use Rattle.ledger.specs.Answer.{State};
ghost use Rattle.saga_core.specs.Calls.{Serves};
ghost use Rattle.http_messages.specs.Requests.{IsRequest, IsTaken};
ghost use Rattle.http_messages.specs.Heads.{Parts};
ghost use Rattle.http_messages.specs.Messages as sent;
ghost use Rattle.http_pages.specs.Pages.{page_said};
ghost use Rattle.desk_http.specs.Answering.{Answers, LaidOut};
ghost use Rattle.desk_http.specs.DemandValues.{demand_said};
ghost use Rattle.http_messages.specs.declared.requests.Message.TheVariants as taken;
ghost use Rattle.desk_http.specs.Hosts.{refusal_at};
ghost use Rattle.desk_http.specs.Demands.{demand_of};
ghost use Rattle.desk_http.specs.Pages.{closes, stops};
ghost use Rattle.desk_http.specs.Reasons.{GoesOnAt, Meets, Tells};
ghost use Rattle.desk_http.specs.Monitored.{AsksForMetrics, GetsCounted, ShowsCounted};

use crate::begun::see_begun;
use crate::demands::{Demand, Unmet, asks_to_stop, demand_in};
use crate::doors::{Door, refusal_at};
use crate::mine::see_mine;
use crate::showing::{
    see_agent, see_cells, see_health, see_journey, see_metrics, see_plan, see_report, see_stock,
    see_unfinished,
};
use crate::whys::see_why;
use commands::Refusal;
use http_log::Metrics;
use http_messages::{Message, Request};
use http_pages::{
    Body, Page, Paths, denied_page, page_bytes, refused_page, reply_page, shown_page, stopping_body,
};
use report_kinds::Reporting;
use saga_core::ServeFault;
use std::alloc::Global;

/// The bytes of a page, and whether the connection ends after it.
#[derive(Drop)]
pub struct Answer {
    /// Status line, fields and body.
    pub bytes: Vec<u8>,
    /// Whether it is a closing page.
    pub closes: bool,
    /// Whether the house asked the desk to stop.
    pub stops: bool,
}

impl Answer {
    /// The bytes of a page. The page of a HEAD request has no body. The only fault is out of memory.
    fn new(
        alloc: Global,
        page: &Page,
        closes: bool,
        stops: bool,
        is_head: bool,
    ) -> Result<Answer, ServeFault>
        ensures laid_out { LaidOut result (page_said page.now) is_head closes stops }
    {
        let bytes = page_bytes(alloc, page, closes, is_head)?;
        Ok(Answer {
            bytes,
            closes,
            stops,
        })
    }
}

/// Answers a message that came in at a door: carries out what it asks for, and lays out its page. What was counted is shown
/// where it asks for that.
///
/// Out of memory, it was carried out or not, and has no page. Store implies an I/O error, as the book tells it.
pub fn answer_to<B: Reporting>(
    alloc: Global,
    paths: &Paths,
    door: Door,
    message: &Message,
    metrics: &Metrics,
    book: &mut B,
) -> Result<Answer, ServeFault>
    ensures answer { B.is_sound book.new → (s : State) → B.stands book.old s →
        (m : sent.Message) → IsTaken message.now m →
        Answers (B.stands book.new) (B.leaves book.new) s door m result }
    ensures closes { IfOk result (λ answer. (m : sent.Message) → IsTaken message.now m →
        answer.closes ≡ closes door m) }
    ensures stops { IfOk result (λ answer. (m : sent.Message) → IsTaken message.now m →
        answer.stops ≡ stops door m) }
    ensures counted { IfOk result (λ answer. (m : sent.Message) → IsTaken message.now m →
        GetsCounted metrics.now door m answer.bytes.items) }

    ensures serves { Serves B.is_sound B.leaves B.has_failed book.old book.new
        ServeFault.Store result }
    ensures may_act { B.is_sound book.new → (first : B) →
        (m : sent.Message) → IsTaken message.now m →
        GoesOnAt (B.may_act first book.old) (B.may_act first book.new) (B.has_reason first book.new)
        door m result }
{
    match message {
        Message::NoHead => {
            let page = refused_page(alloc, &Refusal::BadHead)?;
            Answer::new(alloc, &page, true, false, false)
        }
        Message::Asks(request) => {
            let refusal = refusal_at(alloc, door, request)?;
            let page = page_of(alloc, paths, door, refusal, request, metrics, book)?;
            Answer::new(
                alloc,
                &page,
                closes(refusal, request),
                stops(door, request),
                request.is_head,
            )
        }
    }
}

/// Whether the connection ends after the page of a request, whose head is refused, or is not.
fn closes(refusal: Option<Refusal>, request: &Request) -> bool
    ensures closes { result ≡ (is_some refusal || request.now.closes) }
{
    refusal.is_some() || request.closes
}

/// Whether a request at a door is one of the house that the desk stop.
fn stops(door: Door, request: &Request) -> bool
    ensures stops { (m : sent.Message) → IsTaken (taken.Asks request.now) m →
        result ≡ stops door m }
{
    match door {
        Door::Port => false,
        Door::House => stops_at_house(request),
        Door::Page(_) => false,
    }
}

/// Whether a request at the administrator's socket is one of the administrator that the desk stop.
fn stops_at_house(request: &Request) -> bool
    ensures stops { (m : sent.Message) → IsTaken (taken.Asks request.now) m →
        result ≡ stops Door.House m }
{
    let (asked, refused) = (asks_to_stop(request), request.complaint.is_some());
    is_stop(request.is_unnamed, asked, refused)
}

/// Whether a request that names nobody, or does, asks for a stop, or does not, with a head that is refused, or is not, is
/// to stop the desk.
fn is_stop(unnamed: bool, asked: bool, refused: bool) -> bool
    ensures stop { result ≡ (unnamed && asked && not refused) }
{
    unnamed && asked && !refused
}

/// The page of a request at a door, whose head is refused, or is not.
fn page_of<B: Reporting>(
    alloc: Global,
    paths: &Paths,
    door: Door,
    refusal: Option<Refusal>,
    request: &Request,
    metrics: &Metrics,
    book: &mut B,
) -> Result<Page, ServeFault>
    ensures tells { (parts : Parts) → (body : List ℕ) → IsRequest request.now parts body →
        refusal ≡ refusal_at door parts → Tells B.is_sound B.stands B.leaves B.may_act B.has_reason
        book.old book.new door parts body result }
    ensures counted { (parts : Parts) → (body : List ℕ) → IsRequest request.now parts body →
        refusal ≡ None → AsksForMetrics (demand_of door parts body) →
        IfOk result (λ page. ShowsCounted metrics.now (page_said page)) }

    ensures serves { Serves B.is_sound B.leaves B.has_failed book.old book.new
        ServeFault.Store result }
{
    if let Some(why) = &refusal {
        return Ok(refused_page(alloc, why)?);
    }
    match demand_in(alloc, paths, door, request) {
        Ok(demand) => meet(alloc, &demand, metrics, book),
        Err(Unmet::Refused(denied)) => Ok(denied_page(alloc, &denied)?),
        Err(Unmet::Memory) => Err(ServeFault::Memory),
    }
}

/// The page that reports the outcome of a demand.
fn meet<B: Reporting>(
    alloc: Global,
    demand: &Demand,
    metrics: &Metrics,
    book: &mut B,
) -> Result<Page, ServeFault>
    ensures meets { Meets B.is_sound B.stands B.leaves B.may_act B.has_reason
        book.old book.new (demand_said demand.now) result }
    ensures counted { demand.now ≡ Demand.SeeMetrics →
        IfOk result (λ page. ShowsCounted metrics.now (page_said page)) }

    ensures serves { Serves B.is_sound B.leaves B.has_failed book.old book.new
        ServeFault.Store result }
{
    match demand {
        Demand::Carry(command, ask) => {
            let reply = book.act(command, ask.as_ref())?;
            Ok(reply_page(alloc, &reply)?)
        }
        Demand::SeeJourney(asker, id) => see_journey(alloc, book, asker, *id),
        Demand::SeePlan(asker, id) => see_plan(alloc, book, asker, *id),
        Demand::SeeWhy(asker, id) => see_why(alloc, book, asker, *id),
        Demand::SeeBegun(asker, key) => see_begun(alloc, book, asker, key),
        Demand::SeeUnfinished(asker) => see_unfinished(alloc, book, asker),
        Demand::SeeMine(asker, after) => see_mine(alloc, book, asker, *after),
        Demand::SeeStock => see_stock(alloc, book),
        Demand::SeeCells(filter) => see_cells(alloc, book, filter),
        Demand::SeeHealth => see_health(alloc, book),
        Demand::SeeMetrics => see_metrics(alloc, metrics, book),
        Demand::SeeAgent(asker) => Ok(see_agent(alloc, asker)?),
        Demand::SeePage(page) => Ok(shown_page(Body::Html(*page))),
        Demand::SeeReport(report) => see_report(alloc, book, report),
        Demand::Stop => Ok(shown_page(Body::Json(stopping_body(alloc)?))),
    }
}
