//! Why a journey goes on or does not: the page of its preview. A view changes nothing.
ghost use Rattle.std.specs.Prelude.{◌≡◌, Some};
ghost use Rattle.std.specs.String.{string_bytes};
ghost use Rattle.serde_json.specs.Written.{compact_text};
ghost use Rattle.ledger.specs.Ledger.{history};
ghost use Rattle.saga_core.specs.Views.{record_of};
ghost use Rattle.previews.specs.Previews.{IsTaken, latest_option as latest_option_of, nights_ahead as nights_ahead_of};
ghost use Rattle.desk_http.specs.Demands.{SeeWhy};
ghost use Rattle.desk_http.specs.Pages.{why_shown};
ghost use Rattle.desk_http.specs.Reasons.{Sees, Views};

use crate::doors::Asker;
use crate::showing::own_journey;
use commands::{Phase, Refusal};
use http_pages::{Body, Page, refused_page, shown_page};
use previews::{FreeNight, NextStep, latest_option, look_ahead, next_step, nights_shown, why_body};
use saga_core::{Book, Listed, Record, ServeFault};
use std::alloc::Global;

/// The page of why a journey that who asks sees goes on or does not. A journey of another agent gets the page of one that
/// does not exist.
pub(crate) fn see_why<B: Book>(
    alloc: Global,
    book: &mut B,
    asker: &Asker,
    id: u64,
) -> Result<Page, ServeFault>
    ensures sees { Sees B.is_sound B.stands B.leaves B.has_failed B.may_act B.has_reason
        book.old book.new (SeeWhy asker.now id) result }
{
    let Some(journey) = own_journey(book, asker, id)? else {
        return Ok(refused_page(alloc, &Refusal::NoJourney)?);
    };
    let body = why_of_journey(alloc, book, id, &journey)?;
    Ok(shown_page(Body::Json(body)))
}

/// The object of the preview of a journey, in its compact text.
fn why_of_journey<B: Book>(
    alloc: Global,
    book: &mut B,
    id: u64,
    journey: &Record,
) -> Result<String, ServeFault>
    ensures body { Views B.is_sound B.stands B.leaves B.has_failed B.may_act B.has_reason
        book.old book.new
        (λ s body. record_of s.ledger id ≡ Some journey.now →
        string_bytes body ≡ compact_text (why_shown s.ledger id journey.now)) result }
{
    let taken = read_taken(book, id, journey)?;
    // A journey has the next step that its plan gives, unless the store did not return what was written.
    let Ok(next) = next_step(journey, taken) else {
        return Err(ServeFault::Memory);
    };
    let nights = nights_ahead(alloc, book, &next)?;
    let preview = look_ahead(id, journey, next, &nights);
    Ok(why_body(alloc, &preview, &nights)?)
}

/// The option with which the step at the position of a journey was done last, if the journey goes back.
fn read_taken<B: Book>(book: &mut B, id: u64, journey: &Record) -> Result<Option<usize>, ServeFault>
    ensures taken { Views B.is_sound B.stands B.leaves B.has_failed B.may_act B.has_reason
        book.old book.new
        (λ s. IsTaken s.ledger id journey.now) result }
{
    match journey.cursor.phase {
        Phase::Back(_) => read_latest(book, id, journey.cursor.pos),
        _ => Ok(None),
    }
}

/// The option with which a step of the journey of this number was done last.
fn read_latest<B: Book>(book: &mut B, id: u64, step: usize) -> Result<Option<usize>, ServeFault>
    ensures latest { Views B.is_sound B.stands B.leaves B.has_failed B.may_act B.has_reason
        book.old book.new
        (λ s option. option ≡ latest_option_of step (history s.ledger id)) result }
{
    let items = book.history(id)?;
    match latest_option(&mut Listed::new(&items), step) {
        Ok(option) => Ok(option),
        Err(_) => Err(ServeFault::Memory),
    }
}

/// What is free of each night of the want of a next step.
fn nights_ahead<B: Book>(
    alloc: Global,
    book: &mut B,
    next: &Option<NextStep>,
) -> Result<Vec<FreeNight>, ServeFault>
    ensures nights { Views B.is_sound B.stands B.leaves B.has_failed B.may_act B.has_reason
        book.old book.new
        (λ s nights. nights.items ≡ nights_ahead_of s.ledger next.now) result }
{
    let Some(next) = next else {
        return Ok(Vec::new(alloc));
    };
    let places = book.cells(&next.want)?;
    Ok(nights_shown(alloc, &next.want, &places)?)
}
