//! The holders of the cells that a filter lets through, night by night, read one at a time.

ghost use Rattle.std.specs.Prelude.{◌≡◌, IfOk, IfSome, IsSome};
ghost use Rattle.std.specs.Borrow.{sem};
ghost use Rattle.sql_lists.specs.HoldingLists.{holding_found};
ghost use Rattle.sql_reads.specs.Lending.{LeavesIfErr};
ghost use Rattle.report_writers.specs.HoldingsLeft.{AreGoodHoldingsRest, AreHoldingsOf, HoldingsLeft, IsGoodHolding, holding_short, holding_told};
ghost use Rattle.report_writers.specs.States.{state_numbered};
ghost use Rattle.report_writers.specs.Ready.{StartsList};

use crate::found_rows::FoundRow;
use commands::{Agent, Fault};
use reports::Holding;
use saga_core::{CellFilter, JourneyState};
use sql_lists::{HoldingFound, hand_holdings, next_holding};
use sql_model::fault_of;
use sql_reads::cell_told;
use sqlite::{Alter, Connection, Error, Rows};

/// Starts to read the holders of the cells that a filter lets through, in order of night, kind, supplier and product, and
/// of one cell in order of journey and step. If that fails, nothing has changed.
pub fn start_holdings<'a, S: Alter>(
    conn: &'a mut Connection<S>,
    filter: &CellFilter,
) -> Result<Rows<'a, S>, Error>
    ensures* fault { sem 𝓛 (LeavesIfErr S.row S.Store conn.entry result) }
    ensures starts { IfOk result (λ it. StartsList S.Store conn.entry it
        (λ s holdings. AreHoldingsOf filter.now s.ledger holdings) (HoldingsLeft S.Store)
        (AreGoodHoldingsRest S.Store)) }
{
    hand_holdings(conn, filter)
}

/// The state with this number in the tables.
fn state_numbered(number: u64) -> Option<JourneyState>
    ensures state { result ≡ state_numbered number }
{
    match number {
        0 => Some(JourneyState::Run),
        1 => Some(JourneyState::Back),
        2 => Some(JourneyState::Ended),
        3 => Some(JourneyState::Undone),
        _ => None,
    }
}

/// The holder of a row. Returns `None` if a value is out of range.
fn holding_of(found: &HoldingFound) -> Option<Holding>
    ensures told { IfSome result (λ h.
        holding_told h ≡ holding_short (holding_found found.now)) }
    ensures there { IsGoodHolding (holding_found found.now) → IsSome result }
{
    let (cell, _) = cell_told(&found.cell)?;
    let agent = Agent::parse(found.agent.as_str())?;
    let state = state_numbered(found.phase)?;
    Some(Holding {
        cell,
        journey: found.journey,
        agent,
        state,
        places: found.places,
    })
}

impl<S: Alter> FoundRow<S> for Holding {
    ghost rests = { HoldingsLeft S.Store };

    ghost are_good = { AreGoodHoldingsRest S.Store };

    fn next_found(rows: &mut Rows<'_, S>) -> Result<Option<Holding>, Fault> {
        match next_holding(rows) {
            Ok(Some(found)) => match holding_of(&found) {
                Some(holding) => Ok(Some(holding)),
                None => Err(Fault::Store),
            },
            Ok(None) => Ok(None),
            Err(error) => Err(fault_of(&error)),
        }
    }
}
