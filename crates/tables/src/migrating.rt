//! The migration: it reads the version, and migrates tables of version 1 in one transaction.
//!
//! Every refusal comes before the transaction begins. Until the commit, which is the last call of the store, the disk
//! has only the old tables.

ghost use Rattle.std.specs.Prelude.{◌≡◌, false, Err, IfOk, IfErr};
ghost use Rattle.desk_sql.specs.Schema.{no_schema};
ghost use Rattle.desk_sql.specs.Calls.{GoesOn, Quiet, Idle};
ghost use Rattle.tables.specs.Migrating.{HasFew, JudgesOld, WritesNew};
ghost use Rattle.tables.specs.Outcomes.{EndsBringing, FailsToMigrate, Migrates, StaysIdle, TriesOld};
ghost use Rattle.tables.specs.MigrateReasons.{FailsOnOld};

use crate::migrate_faults::{MigrateFault, fault_of};
use crate::statements::{add_tables, copy_all};
use desk_sql::{Meta, has_no_tables, read_meta, update_meta};
use sqlite::{Alter, Connection, Error, Transaction};

/// More events, and more journeys, than a file may have.
const LIMIT: u64 = 1 << 62;

/// The result of a migration.
#[derive(Clone, Copy, Debug, PartialEq, Eq)]
pub struct Migrated {
    /// The number of events in the ledger.
    pub events: u64,
}

/// Reads the numbers of tables of version 1. Other tables are refused, and nothing changes.
#[tactic(auto, using(desk_sql::proofs::Quieting::quiet_alone))]
fn read_old<S: Alter>(conn: &mut Connection<S>) -> Result<Meta, MigrateFault>
    requires outside { conn.old.in_transaction ≡ false }

    ensures tries { TriesOld S.Store conn.old conn.new result }
    ensures quiet { Quiet S.Store conn.old conn.new }
{
    if has_no_tables(conn.schema()) {
        return Err(MigrateFault::UnknownSchema(0));
    }
    match read_meta(conn) {
        Ok(meta) => old_only(meta),
        Err(error) => Err(fault_of(&error)),
    }
}

/// The numbers that were read, if they are of version 1 and below the limit.
fn old_only(meta: Meta) -> Result<Meta, MigrateFault>
    ensures { JudgesOld meta result }
{
    match meta.version {
        1 if meta.events < LIMIT && meta.journeys < LIMIT => Ok(meta),
        1 => Err(MigrateFault::Store),
        2 => Err(MigrateFault::AlreadyNew),
        version => Err(MigrateFault::UnknownSchema(version)),
    }
}

/// Writes the new tables beside the old ones, and the new version.
fn write_new<S: Alter>(tx: &mut Transaction<'_, S>, meta: Meta) -> Result<(), Error>
    requires few { HasFew meta }

    ensures goes { GoesOn S.Store tx.old.conn tx.new.conn result }
    ensures made { WritesNew S.Store tx.old.conn.now tx.new.conn.now result meta }
    ensures reason { FailsOnOld S.Store tx.old.conn.now tx.new.conn.now result }
{
    add_tables(tx)?;
    copy_all(tx, meta.events)?;
    update_meta(tx, 2, meta.events, meta.journeys)?;
    Ok(())
}

/// Migrates the tables in one commit, which is the last call of the store.
fn bring_over<S: Alter>(conn: &mut Connection<S>, meta: Meta) -> Result<(), MigrateFault>
    requires idle { Idle conn.old }
    requires few { HasFew meta }

    ensures ends { EndsBringing S.Store conn.old conn.new meta result }
    ensures idle { StaysIdle S.Store conn.old conn.new }
{
    let mut tx = conn.transaction();
    if let Err(error) = write_new(&mut tx, meta) {
        tx.rollback();
        return Err(fault_of(&error));
    }
    match tx.commit() {
        Ok(()) => Ok(()),
        Err(_) => Err(MigrateFault::Store),
    }
}

/// Migrates tables of version 1 to version 2, in one commit. The ledger and the kept replies stay as they are. The
/// table `entry` stays in the file, and is no longer read.
///
/// A store without tables and tables of another version are refused, and nothing changes. After a fault a crash leaves
/// the old tables or the new ones; the connection itself, if it is open, still shows the old ones. Over a store that is
/// up, whose tables of version 1 represent a state, `Store` implies an error: the disk failed or refused, the commit ran out
/// of memory, or the ledger has 2^62 or more events.
pub fn migrate<S: Alter>(conn: &mut Connection<S>) -> Result<Migrated, MigrateFault>
    requires idle { Idle conn.old }

    ensures migrates { IfOk result (λ m. Migrates S.Store conn.old conn.new m.events) }

    ensures bare { conn.old.schema ≡ no_schema → result ≡ Err (MigrateFault.UnknownSchema 0) }
    ensures fails { IfErr result (FailsToMigrate S.Store conn.old conn.new) }

    ensures idle { StaysIdle S.Store conn.old conn.new }
{
    let meta = read_old(conn)?;
    bring_over(conn, meta)?;
    Ok(Migrated {
        events: meta.events,
    })
}
