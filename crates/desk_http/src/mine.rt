//! The own journeys of who asks, finished ones too. A view changes nothing.
ghost use Rattle.desk_http.specs.Demands.{SeeMine};
ghost use Rattle.desk_http.specs.Reasons.{Sees};

use crate::doors::Asker;
use http_pages::{Body, Page, mine_body, shown_page};
use saga_core::{Book, ServeFault};
use std::alloc::Global;

/// How many journeys a page shows, at most.
const MOST_SHOWN: usize = 100;

/// The page of the first hundred of the own journeys of who asks above a number, by rising number.
pub(crate) fn see_mine<B: Book>(
    alloc: Global,
    book: &mut B,
    asker: &Asker,
    after: u64,
) -> Result<Page, ServeFault>
    ensures sees { Sees B.is_sound B.stands B.leaves B.has_failed B.may_act B.has_reason
        book.old book.new (SeeMine asker.now after) result }
{
    let owner = asker.owner();
    let briefs = book.owned(&owner, after, MOST_SHOWN)?;
    let body = mine_body(alloc, asker.owners(), &briefs)?;
    Ok(shown_page(Body::Json(body)))
}
