//! Reads of the tables, in the desk's types. A read changes nothing, whether it succeeds or not.
ghost use Rattle.std.specs.Prelude.{◌≡◌, ◌<◌, ◌≤◌, ◌^◌, IfOk, IfSome};
ghost use Rattle.ledger.specs.Ledger.{history};
ghost use Rattle.saga_core.specs.Views.{ShowsCells};
ghost use Rattle.sql_reads.specs.Reads.{AnyDesk, Read, ReadEach, ReadIn};
ghost use Rattle.sql_reads.specs.Reading.{AreMarksAt, AreTakenIn, HasNone, HasStand, HasTries, IsFirstAbove, IsPlanOf, IsRecordAt, IsRecordOf, IsStandAt};
ghost use Rattle.desk_sql.specs.declared.versions.Version.TheVariants.{Two};
ghost use Rattle.plan.specs.PlanModel.{step_count};
ghost use Rattle.sql_reads.specs.FoundJourney.{IsRowAt};
ghost use Rattle.sql_reads.specs.ItemSearch.{AreSoughtAt, IsLow, IsNextRow};

use crate::item_search::Sought;
use crate::next_item;
use crate::nights_read::read_places;
use crate::plan_rows::plan_told;
use crate::telling::{brief_of, marks_told, stand_of};
use crate::traces::read_items;
use allotment::{Cell, Held, Night, Want};
use commands::{Agent, Cursor, Fault, Item};
use desk_sql::{
    ItemFound, JourneyFound, Version, find_journey, find_marks, find_steps, first_unfinished,
    read_meta,
};
use plan::{Marks, Plan};
use saga_core::{Brief, Record};
use sql_model::fault_of;
use sqlite::{Alter, Connection};
use std::alloc::Global;

/// The largest number that a query of a store may have.
pub const LARGEST: u64 = i64::MAX as u64;

/// Returns the unfinished journey with the least number above `after`, if there is one.
pub fn read_first_unfinished<S: Alter>(
    conn: &mut Connection<S>,
    after: u64,
) -> Result<Option<Brief>, Fault>
    ensures { Read S.Store conn.old conn.new result (IsFirstAbove after) }
{
    match first_unfinished(conn, after.min(LARGEST)) {
        Ok(None) => Ok(None),
        Ok(Some(found)) => {
            if after > LARGEST {
                return Err(Fault::Store);
            }
            match brief_of(&found) {
                Some(brief) => Ok(Some(brief)),
                None => Err(Fault::Store),
            }
        }
        Err(error) => Err(fault_of(&error)),
    }
}

/// Checks that no journey has a number that is greater than any that a query may have.
pub(crate) fn check_absent<S: Alter>(conn: &mut Connection<S>, id: u64) -> Result<(), Fault>
    ensures { ReadEach S.Store conn.old conn.new result (λ _. 2 ^ 63 ≤ id) (HasNone id) }
{
    match read_meta(conn) {
        Ok(meta) if meta.journeys < id => Ok(()),
        Ok(_) => Err(Fault::Store),
        Err(error) => Err(fault_of(&error)),
    }
}

/// Finds the row of the journey of that number, if there is one.
pub(crate) fn find_row<S: Alter>(
    conn: &mut Connection<S>,
    id: u64,
) -> Result<Option<JourneyFound>, Fault>
    ensures low { IfOk result (λ found. IfSome found (λ _. id < 2 ^ 63)) }
    ensures read { (v : Version) → ReadIn S.Store conn.old conn.new v result AnyDesk
        (IsRowAt v id) }
{
    if id > LARGEST {
        check_absent(conn, id)?;
        return Ok(None);
    }
    match find_journey(conn, id) {
        Ok(found) => Ok(found),
        Err(error) => Err(fault_of(&error)),
    }
}

/// Finds where the items of the journey of that number are in the store.
pub(crate) fn find_sought<S: Alter>(conn: &mut Connection<S>, id: u64) -> Result<Sought, Fault>
    ensures low { IfOk result IsLow }
    ensures read { ReadEach S.Store conn.old conn.new result AnyDesk (AreSoughtAt id) }
{
    let row = find_row(conn, id)?;
    match row {
        Some(found) if found.num <= LARGEST => Ok(Sought {
            journey: id,
            after: found.num,
            steps: found.steps,
        }),
        Some(_) => Err(Fault::Store),
        None => Ok(Sought::nowhere()),
    }
}

/// Reads the next item of a search in tables of this version, with the number of its event.
pub(crate) fn find_next<S: Alter>(
    conn: &mut Connection<S>,
    version: Version,
    sought: &Sought,
) -> Result<Option<ItemFound>, Fault>
    ensures { ReadIn S.Store conn.old conn.new version result (λ _. IsLow sought.now)
        (IsNextRow sought.now) }
{
    if sought.journey > LARGEST || sought.after > LARGEST {
        return Err(Fault::Store);
    }
    match next_item(conn, version, sought.journey, sought.after) {
        Ok(found) => Ok(found),
        Err(error) => Err(fault_of(&error)),
    }
}

/// Returns the items of the journey of that number, in order; none if there is no such journey.
pub fn read_history<S: Alter>(
    alloc: Global,
    conn: &mut Connection<S>,
    id: u64,
) -> Result<Vec<Item>, Fault>
    ensures { Read S.Store conn.old conn.new result (λ s items. items.items ≡ history s.ledger id) }
{
    let sought = find_sought(conn, id)?;
    read_items(alloc, conn, sought.journey, sought.after)
}

/// Returns the plan of the journey of that number, if its tries are these.
fn read_plan<S: Alter>(
    alloc: Global,
    conn: &mut Connection<S>,
    id: u64,
    tries: u64,
) -> Result<Plan, Fault>
    requires { id < 2 ^ 63 }

    ensures { ReadEach S.Store conn.old conn.new result (HasTries id tries) (IsPlanOf id tries) }
{
    match find_steps(alloc, conn, id) {
        Ok(found) => plan_told(alloc, found.as_slice(), tries),
        Err(error) => Err(fault_of(&error)),
    }
}

/// Returns the save-points that the journey of that number took and that stand.
fn read_marks<S: Alter>(alloc: Global, conn: &mut Connection<S>, id: u64) -> Result<Marks, Fault>
    requires { id < 2 ^ 63 }

    ensures { Read S.Store conn.old conn.new result (AreMarksAt id) }
{
    match find_marks(alloc, conn, id) {
        Ok(found) => match marks_told(found.as_slice()) {
            Some(marks) => Ok(marks),
            None => Err(Fault::Store),
        },
        Err(error) => Err(fault_of(&error)),
    }
}

/// Returns the save-points that the journey of that number took and that stand; tables of version 1 have none.
fn read_taken<S: Alter>(
    alloc: Global,
    conn: &mut Connection<S>,
    version: Version,
    id: u64,
) -> Result<Marks, Fault>
    requires { id < 2 ^ 63 }

    ensures { ReadIn S.Store conn.old conn.new version result AnyDesk (AreTakenIn version id) }
{
    match version {
        Version::One => {
            let marks = Marks::none();
            let _in_range = marks.has(0);
            Ok(marks)
        }
        Version::Two => read_marks(alloc, conn, id),
    }
}

/// The agent, the tries and the cursor of a journey, without its plan.
#[derive(Clone, Copy, Debug, PartialEq, Eq)]
pub struct Stand {
    /// The agent who began it.
    pub agent: Agent,
    /// The number of steps in its plan.
    pub steps: usize,
    /// How many of its steps may be refused before a refusal leads to its start.
    pub tries: u64,
    /// The cursor of the journey.
    pub cursor: Cursor,
}

/// Returns the agent, the number of steps, the tries and the cursor of the journey of that number, if there is one.
pub fn read_stand<S: Alter>(conn: &mut Connection<S>, id: u64) -> Result<Option<Stand>, Fault>
    ensures { Read S.Store conn.old conn.new result (IsStandAt id) }
{
    let row = find_row(conn, id)?;
    match row {
        None => Ok(None),
        Some(found) => match stand_of(&found) {
            Some(stand) => Ok(Some(stand)),
            None => Err(Fault::Store),
        },
    }
}

/// Returns the journey of that number, whose own row was read before, by the rows of its plan and of its save-points.
pub fn read_record<S: Alter>(
    alloc: Global,
    conn: &mut Connection<S>,
    id: u64,
    stand: &Stand,
) -> Result<Record, Fault>
    requires { id < 2 ^ 63 }

    ensures steps { IfOk result (λ r. step_count r.plan ≡ stand.now.steps) }
    ensures cursor { IfOk result (λ r. r.cursor ≡ stand.now.cursor) }
    ensures read { ReadIn S.Store conn.old conn.new Two result (HasStand id stand.now)
        (IsRecordOf id stand.now) }
{
    let plan = read_plan(alloc, conn, id, stand.tries)?;
    let marks = read_marks(alloc, conn, id)?;
    if plan.steps() != stand.steps {
        return Err(Fault::Store);
    }
    Ok(Record {
        agent: stand.agent,
        plan,
        cursor: stand.cursor,
        marks,
    })
}

/// Returns the journey of that number in tables of this version, if there is one.
pub fn read_journey<S: Alter>(
    alloc: Global,
    conn: &mut Connection<S>,
    version: Version,
    id: u64,
) -> Result<Option<Record>, Fault>
    ensures { ReadIn S.Store conn.old conn.new version result AnyDesk (IsRecordAt id) }
{
    let row = find_row(conn, id)?;
    match row {
        None => Ok(None),
        Some(found) => {
            let Some(stand) = stand_of(&found) else {
                return Err(Fault::Store);
            };
            let plan = read_plan(alloc, conn, id, found.tries)?;
            let marks = read_taken(alloc, conn, version, id)?;
            Ok(Some(Record {
                agent: stand.agent,
                plan,
                cursor: stand.cursor,
                marks,
            }))
        }
    }
}

/// Returns the places of a want's nights, in order of night, without the nights that have no allotment.
pub fn read_cells<S: Alter>(
    alloc: Global,
    conn: &mut Connection<S>,
    want: &Want,
) -> Result<Vec<(Night, Held)>, Fault>
    ensures { Read S.Store conn.old conn.new result (λ s cells. ShowsCells want.now s cells.items) }
{
    let first = Cell::new(want.kind(), want.supplier(), want.product(), want.first());
    read_places(alloc, conn, &first, u32::from(want.nights()))
}
