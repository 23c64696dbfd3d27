//! The journey that was begun under a key. A view changes nothing.
ghost use Rattle.std.specs.Prelude.{◌≡◌};
ghost use Rattle.desk_http.specs.Demands.{SeeBegun};
ghost use Rattle.desk_http.specs.Pages.{own_begun, own_brief};
ghost use Rattle.desk_http.specs.Reasons.{Sees, Views};

use crate::doors::Asker;
use commands::{Key, Refusal, Reply};
use http_pages::{Body, Page, brief_body, refused_page, shown_page};
use saga_core::{Book, Brief, ServeFault};
use std::alloc::Global;

/// The page of the journey that who asks began under a key. The house's own are those of the agent `desk`.
pub(crate) fn see_begun<B: Book>(
    alloc: Global,
    book: &mut B,
    asker: &Asker,
    key: &Key,
) -> Result<Page, ServeFault>
    ensures sees { Sees B.is_sound B.stands B.leaves B.has_failed B.may_act B.has_reason
        book.old book.new (SeeBegun asker.now key.now) result }
{
    let Some(brief) = own_begun(book, asker, key)? else {
        return Ok(refused_page(alloc, &Refusal::NoJourney)?);
    };
    let body = brief_body(alloc, asker.owners(), &brief)?;
    Ok(shown_page(Body::Json(body)))
}

/// The journey that who asks began under a key, by the reply that is kept.
fn own_begun<B: Book>(book: &mut B, asker: &Asker, key: &Key) -> Result<Option<Brief>, ServeFault>
    ensures brief { Views B.is_sound B.stands B.leaves B.has_failed B.may_act B.has_reason
        book.old book.new
        (λ s found. found ≡ own_begun s asker.now key.now) result }
{
    match book.kept(&asker.owner(), key)? {
        Some(Reply::Begun { id }) => own_brief(book, asker, id),
        Some(_) | None => Ok(None),
    }
}

/// The journey of this number, if who asks sees it.
fn own_brief<B: Book>(book: &mut B, asker: &Asker, id: u64) -> Result<Option<Brief>, ServeFault>
    ensures brief { Views B.is_sound B.stands B.leaves B.has_failed B.may_act B.has_reason
        book.old book.new
        (λ s found. found ≡ own_brief s.ledger asker.now id) result }
{
    match book.trace(id)? {
        Some(trace) if asker.sees(&trace.brief.agent) => Ok(Some(trace.brief)),
        _ => Ok(None),
    }
}
