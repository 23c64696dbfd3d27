//! Journeys, one at a time: the unfinished ones above a number, those of an agent above a number, or those that a filter lets through.

ghost use Rattle.std.specs.Prelude.{◌≡◌, ◌<◌, ◌^◌, List, IfErr, IfOk, option_map};
ghost use Rattle.std.specs.Borrow.{sem};
ghost use Rattle.sqlite.specs.Held.{state};
ghost use Rattle.sqlite.specs.State.{HasCleanDisk};
ghost use Rattle.desk_sql.specs.Calls.{Quiet};
ghost use Rattle.desk_sql.specs.Causes.{HasReason, IsUp};
ghost use Rattle.desk_sql.specs.FoundRows.{journey_of};
ghost use Rattle.desk_sql.specs.Lending.{LeavesIfErr};
ghost use Rattle.desk_sql.specs.Readable.{Each, IsAgentText};
ghost use Rattle.desk_sql.specs.RemainingRows.{Hands, ListsOwned, ListsUnfinished};
ghost use Rattle.desk_sql.specs.Rows.{JourneyRow};
ghost use Rattle.sql_lists.specs.Listing.{StartsOver};
ghost use Rattle.sql_lists.specs.JourneyLists.{JourneysRest, ListsJourneys, least_phase, most_phase, state_number};

use commands::Agent;
use desk_sql::{JourneyFound, read_journey};
use saga_core::{JourneyFilter, JourneyState, Phases};
use sqlite::types::ValueRef;
use sqlite::{Alter, Connection, Error, Rows};

/// The number of a state in the tables: 0 running, 1 going back, 2 ended, 3 undone.
fn number_of(state: JourneyState) -> u64
    ensures number { result ≡ state_number state }
{
    match state {
        JourneyState::Run => 0,
        JourneyState::Back => 1,
        JourneyState::Ended => 2,
        JourneyState::Undone => 3,
    }
}

/// The least and the greatest number of the phases.
fn range_of(phases: Phases) -> (u64, u64)
    ensures least { result.0 ≡ least_phase phases }
    ensures most { result.1 ≡ most_phase phases }
{
    match phases {
        Phases::All => (0, 3),
        Phases::Unfinished => (0, 1),
        Phases::Only(state) => (number_of(state), number_of(state)),
    }
}

/// Starts to read the unfinished journeys above a number, in order of number. If that fails, nothing has changed.
pub fn hand_unfinished<S: Alter>(conn: &mut Connection<S>, after: u64) -> Result<Rows<'_, S>, Error>
    requires { after < 2 ^ 63 }

    ensures* fault { sem 𝓛 (LeavesIfErr S.row S.Store conn.entry result) }
    ensures started { IfOk result (λ it.
        StartsOver S.Store conn.entry it (ListsUnfinished after) (JourneysRest S.Store)) }
{
    conn.query(
        "SELECT id, num, agent, steps, tries, pos, phase, target, used FROM journey WHERE id > ?1 AND phase <= 1 ORDER BY id",
        &[ValueRef::Int(after as i64)],
    )
}

/// Starts to read the journeys of an agent above a number, in order of number, finished ones too. If that fails, nothing has
/// changed.
pub fn hand_owned<'a, S: Alter>(
    conn: &'a mut Connection<S>,
    agent: &Agent,
    after: u64,
) -> Result<Rows<'a, S>, Error>
    requires { after < 2 ^ 63 }

    ensures* fault { sem 𝓛 (LeavesIfErr S.row S.Store conn.entry result) }
    ensures started { IfOk result (λ it.
        StartsOver S.Store conn.entry it (ListsOwned agent.now after) (JourneysRest S.Store)) }
{
    conn.query(
        "SELECT id, num, agent, steps, tries, pos, phase, target, used FROM journey WHERE id > ?1 AND agent = ?2 ORDER BY id",
        &[
            ValueRef::Int(after as i64),
            ValueRef::Text(agent.as_str().as_bytes()),
        ],
    )
}

/// Starts to read the journeys that a filter lets through, in order of number. If that fails, nothing has changed.
pub fn hand_journeys<'a, S: Alter>(
    conn: &'a mut Connection<S>,
    filter: &JourneyFilter,
) -> Result<Rows<'a, S>, Error>
    ensures* fault { sem 𝓛 (LeavesIfErr S.row S.Store conn.entry result) }
    ensures started { IfOk result (λ it.
        StartsOver S.Store conn.entry it (ListsJourneys filter.now) (JourneysRest S.Store)) }
{
    let (least, most) = range_of(filter.phases);
    let least = ValueRef::Int(least as i64);
    let most = ValueRef::Int(most as i64);
    match filter.agent {
        None => conn.query(
            "SELECT id, num, agent, steps, tries, pos, phase, target, used FROM journey WHERE phase BETWEEN ?1 AND ?2 ORDER BY id",
            &[least, most],
        ),
        Some(agent) => conn.query(
            "SELECT id, num, agent, steps, tries, pos, phase, target, used FROM journey WHERE agent = ?1 AND phase BETWEEN ?2 AND ?3 ORDER BY id",
            &[ValueRef::Text(agent.as_str().as_bytes()), least, most],
        ),
    }
}

/// Returns the next journey of the rows that `hand_unfinished`, `hand_owned` or `hand_journeys` started; `None` after the last one.
pub fn next_journey<S: Alter>(rows: &mut Rows<'_, S>) -> Result<Option<JourneyFound>, Error>
    ensures same_reference { rows.new.conn.ghost_name ≡ rows.old.conn.ghost_name }
    ensures next { HasCleanDisk (state S.Store rows.new.conn.now) → IfOk result (λ found.
        Hands (JourneysRest S.Store rows.old.conn.now)
        (JourneysRest S.Store rows.new.conn.now) (option_map journey_of found)) }
    ensures reason { HasCleanDisk (state S.Store rows.new.conn.now) → (later : List JourneyRow)
        → JourneysRest S.Store rows.old.conn.now later → Each IsAgentText later
        → IsUp (state S.Store rows.old.conn.now)
        → IfErr result
        (HasReason (state S.Store rows.old.conn.now) (state S.Store rows.new.conn.now)) }
    ensures quiet { Quiet S.Store rows.old.conn.now rows.new.conn.now }
{
    rows.advance()?;
    match rows.get() {
        Some(row) => {
            let journey = read_journey(row)?;
            Ok(Some(journey))
        }
        None => Ok(None),
    }
}
