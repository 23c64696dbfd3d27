//! The opening of a store: its state is found, and a store without tables gets all tables in one commit.
//!
//! A store represents the same state after the opening, even if the opening fails: it changes no row of a desk. Tables
//! of the version before the newest are opened for reads; tables of any other version are not opened.
//!
//! Words: a connection *stood for* a state (`StoodFor`) if it showed that state and a crash left just that state; a
//! store without tables represents a new desk.

ghost use Rattle.std.specs.Prelude.{◌≡◌, ◌≢◌, ◌↔◌, false, None, IsTrue, IfOk, IfErr};
ghost use Rattle.desk_sql.specs.Schema.{no_schema};
ghost use Rattle.desk_sql.specs.Calls.{Idle};
ghost use Rattle.tables.specs.Opening.{EndsOpening, FailsOpening, IsOpeningFault, Opens};

use crate::faults::OpenFault;
use commands::Fault;
use desk_sql::{Version, has_no_tables, make_tables, read_meta};
use saga_core::Record;
use sql_model::fault_of;
use sql_reads::read_journey;
use sqlite::{Alter, Connection};
use std::alloc::Global;

/// A connection in which the desk's tables were found.
#[derive(Drop)]
pub struct Opened<S: Alter> {
    pub(crate) conn: Connection<S>,
    /// The version of its tables.
    pub(crate) version: Version,
}

/// The connection without its limit of steps, and otherwise as it is.
pub(crate) fn without_limit<S: Alter>(mut conn: Connection<S>) -> Connection<S>
    ensures same { result ≡ record conn { step_limit = None } }
{
    conn.set_step_limit(None);
    conn
}

impl<S: Alter> Opened<S> {
    ghost use Rattle.tables.specs.Making.{GivesBack};

    /// Returns the connection without a limit of steps. The next `open_from` finds the state that was kept.
    pub fn into_store(self) -> Connection<S>
        ensures { GivesBack S.Store self result }
    {
        let Opened { conn, version: _ } = self;
        without_limit(conn)
    }

    /// The version of its tables.
    pub fn version(&self) -> Version
        ensures same { result ≡ self.now.version }
    {
        self.version
    }

    /// Whether its connection is outside of a transaction, as it is after `open_from`.
    pub(crate) fn is_outside(&self) -> bool
        ensures outside { IsTrue result ↔ (self.now.conn.in_transaction ≡ false) }
    {
        self.conn.is_autocommit()
    }
}

impl<S: Alter> Opened<S> {
    ghost use Rattle.std.specs.Borrow.{sem};
    ghost use Rattle.sql_reads.specs.Causes.{FailsForReasonIn};
    ghost use Rattle.sql_reads.specs.Reading.{IsRecordAt, ShowsKeptIn};
    ghost use Rattle.tables.specs.Lending.{IsOnlyRead, LendsConnection};

    /// Returns the journey of that number, if there is one. A fault changes nothing, and the call may be retried.
    pub fn journey_of(&mut self, alloc: Global, id: u64) -> Result<Option<Record>, Fault>
        ensures journey { ShowsKeptIn S.Store self.old.conn self.new.conn self.old.version result
            (IsRecordAt id) }
        ensures store { FailsForReasonIn S.Store self.old.conn self.new.conn self.old.version
            result }
        ensures kept { IsOnlyRead S.Store self.old self.new }
    {
        read_journey(alloc, &mut self.conn, self.version, id)
    }

    /// Lends the connection, for instance to `report_writers::start_stock` and `start_unfinished`, whose rows borrow it. When
    /// they are let go, what was opened has the connection as they left it.
    pub fn connection(&mut self) -> &mut Connection<S>
        ensures* lends { sem 𝓛 (LendsConnection S.row S.Store self.entry result) }
        ensures same { result.now ≡ self.old.conn }
    {
        &mut self.conn
    }
}

/// The fault of an opening for a fault of the store.
fn opening_fault(fault: Fault) -> OpenFault
    ensures { IsOpeningFault fault result }
{
    match fault {
        Fault::Memory => OpenFault::Memory,
        Fault::Store => OpenFault::Store,
    }
}

/// Creates all tables of the newest version in one commit, in a store that has none.
fn found_tables<S: Alter>(conn: &mut Connection<S>) -> Result<Version, OpenFault>
    requires idle { Idle conn.old }
    requires bare { conn.old.schema ≡ no_schema }

    ensures { EndsOpening S.Store conn.old conn.new result }
{
    let mut tx = conn.transaction();
    if let Err(error) = make_tables(&mut tx) {
        tx.rollback();
        return Err(opening_fault(fault_of(&error)));
    }
    match tx.commit() {
        Ok(()) => Ok(Version::Two),
        Err(_) => Err(OpenFault::Store),
    }
}

/// Reads the version of the tables, and changes nothing.
fn read_version<S: Alter>(conn: &mut Connection<S>) -> Result<Version, OpenFault>
    requires idle { Idle conn.old }
    requires filled { conn.old.schema ≢ no_schema }

    ensures { EndsOpening S.Store conn.old conn.new result }
{
    match read_meta(conn) {
        Ok(meta) => match Version::from_number(meta.version) {
            Some(version) => Ok(version),
            None => Err(OpenFault::UnknownSchema(meta.version)),
        },
        Err(error) => Err(opening_fault(fault_of(&error))),
    }
}

/// Finds the state that the store of a connection represents: a desk with its tables, or a new desk, which gets its
/// tables. Tables of version 1 are only read; no book is made of them.
///
/// Over a store that is up, and that has no tables or keeps a desk, `Store` implies an error: the disk failed or refused, or
/// the commit of new tables ran out of memory.
pub fn open_from<S: Alter>(mut conn: Connection<S>) -> Result<Opened<S>, (Connection<S>, OpenFault)>
    requires idle { Idle conn }

    ensures opens { IfOk result (λ o. Opens S.Store conn o.conn o.version) }
    ensures fails { IfErr result (λ e. FailsOpening S.Store conn e.0 e.1) }
{
    let bare = has_no_tables(conn.schema());
    if bare {
        return match found_tables(&mut conn) {
            Ok(version) => Ok(Opened { conn, version }),
            Err(fault) => Err((conn, fault)),
        };
    }
    match read_version(&mut conn) {
        Ok(version) => Ok(Opened { conn, version }),
        Err(fault) => Err((conn, fault)),
    }
}
