//! Lists of journeys, each read by one statement: the unfinished ones above a number, and those of one agent.
ghost use Rattle.std.specs.Prelude.{◌≡◌, ◌<◌, ◌^◌, take};
ghost use Rattle.saga_core.specs.Views.{owned_above};
ghost use Rattle.sql_reads.specs.Reading.{AreUnfinishedAbove};
ghost use Rattle.sql_reads.specs.Reads.{Read};

use commands::{Agent, Fault};
use report_writers::{FoundRows, Progress};
use reports::take_rows;
use saga_core::Brief;
use sql_lists::{hand_owned, hand_unfinished};
use sql_model::fault_of;
use sql_reads::LARGEST;
use sqlite::{Alter, Connection};
use std::alloc::Global;

/// Returns the unfinished journeys above `after`, in order of number.
pub(crate) fn read_unfinished<S: Alter>(
    alloc: Global,
    conn: &mut Connection<S>,
    after: u64,
) -> Result<Vec<Brief>, Fault>
    requires { after < 2 ^ 63 }

    ensures { Read S.Store conn.old conn.new result
        (λ s briefs. AreUnfinishedAbove after s briefs.items) }
{
    let mut rows = match hand_unfinished(conn, after) {
        Ok(rows) => rows,
        Err(error) => return Err(fault_of(&error)),
    };
    let mut briefs = FoundRows {
        rows: &mut rows,
        progress: Progress::new(),
    };
    take_rows(alloc, &mut briefs, usize::MAX)
}

/// Returns the journeys of this agent above `after`, finished ones too, in order of number, at most so many. Unless an index leads
/// to the journeys of an agent, each journey between `after` and the last one that is found is looked at.
pub(crate) fn read_owned<S: Alter>(
    alloc: Global,
    conn: &mut Connection<S>,
    agent: &Agent,
    after: u64,
    most: usize,
) -> Result<Vec<Brief>, Fault>
    ensures { Read S.Store conn.old conn.new result
        (λ s briefs. briefs.items ≡ take most (owned_above s.ledger agent.now after)) }
{
    let mut rows = match hand_owned(conn, agent, after.min(LARGEST)) {
        Ok(rows) => rows,
        Err(error) => return Err(fault_of(&error)),
    };
    let mut found = FoundRows {
        rows: &mut rows,
        progress: Progress::new(),
    };
    let briefs = take_rows(alloc, &mut found, most)?;
    if after > LARGEST && !briefs.is_empty() {
        return Err(Fault::Store);
    }
    Ok(briefs)
}
