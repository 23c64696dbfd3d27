//! The index on the agents of the journeys, added to tables of the newest version that have none, in one commit.
//!
//! No row changes, and the version stays. Tables of another version are refused. Whatever the result, the connection represents
//! what it represented, and a crash leaves just that.

ghost use Rattle.std.specs.Prelude.{◌≡◌, false, IfOk, IfErr};
ghost use Rattle.desk_sql.specs.Calls.{Idle, Quiet};
ghost use Rattle.desk_sql.specs.Indexing.{HasExtra};
ghost use Rattle.tables.specs.Indexing.{EndsIndexing, HasIndex, JudgesNewest, Keeps, RefusesIndex, StandsOn, TriesNewest};
ghost use Rattle.tables.specs.Outcomes.{StaysIdle};

use crate::migrate_faults::{MigrateFault, fault_of};
use desk_sql::{Meta, add_index, has_extra_index, has_no_tables, read_meta};
use sqlite::{Alter, Connection};

/// What tables have now.
#[derive(Clone, Copy, Debug, PartialEq, Eq)]
pub struct Indexed {
    /// Whether the index was made now. If not, the tables had one beside those of their keys.
    pub is_new: bool,
    /// The number of journeys.
    pub journeys: u64,
}

/// Reads the numbers of tables of the newest version. Other tables are refused, and nothing changes.
fn read_new<S: Alter>(conn: &mut Connection<S>) -> Result<Meta, MigrateFault>
    requires outside { conn.old.in_transaction ≡ false }

    ensures tries { TriesNewest S.Store conn.old conn.new result }
    ensures quiet { Quiet S.Store conn.old conn.new }
{
    if has_no_tables(conn.schema()) {
        return Err(MigrateFault::UnknownSchema(0));
    }
    match read_meta(conn) {
        Ok(meta) => newest_only(meta),
        Err(error) => Err(fault_of(&error)),
    }
}

/// The numbers that were read, if they are of the newest version.
fn newest_only(meta: Meta) -> Result<Meta, MigrateFault>
    ensures { JudgesNewest meta result }
{
    match meta.version {
        2 => Ok(meta),
        version => Err(MigrateFault::UnknownSchema(version)),
    }
}

/// Makes the index in one commit, which is the last call of the store.
fn add_to<S: Alter>(conn: &mut Connection<S>) -> Result<(), MigrateFault>
    requires idle { Idle conn.old }
    requires lacks { ¬ HasExtra conn.old.schema }

    ensures keeps { Keeps S.Store conn.old conn.new }
    ensures ends { EndsIndexing S.Store conn.old conn.new result }
    ensures idle { StaysIdle S.Store conn.old conn.new }
{
    let mut tx = conn.transaction();
    if let Err(error) = add_index(&mut tx) {
        tx.rollback();
        return Err(fault_of(&error));
    }
    match tx.commit() {
        Ok(()) => Ok(()),
        Err(_) => Err(MigrateFault::Store),
    }
}

/// Adds the index on the agents of the journeys to tables of the newest version, in one commit. If they have an index beside those of
/// their keys, nothing changes.
///
/// A store without tables and tables of another version are refused, and nothing changes. After a fault the tables have the index
/// or not; in both cases they represent the same state.
pub fn index<S: Alter>(conn: &mut Connection<S>) -> Result<Indexed, MigrateFault>
    requires idle { Idle conn.old }

    ensures has { IfOk result (HasIndex S.Store conn.old conn.new) }

    ensures refused { IfErr result (RefusesIndex S.Store conn.old conn.new) }

    ensures stands { StandsOn S.Store conn.old conn.new }
    ensures idle { StaysIdle S.Store conn.old conn.new }
{
    let meta = read_new(conn)?;
    let is_new = !has_extra_index(conn.schema());
    if is_new {
        add_to(conn)?;
    }
    Ok(Indexed {
        is_new,
        journeys: meta.journeys,
    })
}
