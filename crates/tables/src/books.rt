//! The book over tables: how it is made of what was opened, and what it leaves.
mod calls;
mod looks;
mod reporting;

ghost use Rattle.std.specs.Prelude.{◌≡◌, false, IfOk, IfErr, IsOk};

use crate::faults::OpenFault;
use crate::opening::{Opened, without_limit};
use desk_sql::Version;
use sqlite::{Alter, Connection};
use std::alloc::Global;

/// A book over one connection.
#[derive(Drop)]
pub struct TableBook<S: Alter> {
    conn: Connection<S>,
    alloc: Global,
    failed: bool,
    /// The journeys up to this number have finished: a search for unfinished ones skips them.
    finished: u64,
    /// How many journeys are unfinished, once they were counted.
    unfinished: Option<u64>,
    ghost outside: { conn.in_transaction ≡ false },
}

impl<S: Alter> TableBook<S> {
    ghost use Rattle.tables.specs.Making.{LetsGo};

    /// Returns the connection without a limit of steps. The next `open_from` finds the state that the book represented.
    pub fn into_store(self) -> Connection<S>
        ensures { LetsGo S.Store self result }
    {
        let TableBook {
            conn,
            alloc: _,
            failed: _,
            finished: _,
            unfinished: _,
        } = self;
        without_limit(conn)
    }
}

impl<S: Alter> Opened<S> {
    ghost use Rattle.tables.specs.Making.{MakesBook, MakesNoBook};

    /// Makes a book of what was opened, if its tables are of the newest version. Else, or if the connection is in a
    /// transaction, returns what was opened as it is.
    pub fn into_book(self, alloc: Global) -> Result<TableBook<S>, (Opened<S>, OpenFault)>
        ensures made { IfOk result (MakesBook S.Store self) }
        ensures ready { self.conn.in_transaction ≡ false → self.version ≡ Version.Two →
            IsOk result }

        ensures unmade { IfErr result (λ e. MakesNoBook self e.0 e.1) }
    {
        match self.version() {
            Version::One => Err((self, OpenFault::UnknownSchema(1))),
            Version::Two if self.is_outside() => {
                let Opened { conn, version: _ } = self;
                Ok(TableBook {
                    conn,
                    alloc,
                    failed: false,
                    finished: 0,
                    unfinished: None,
                })
            }
            Version::Two => Err((self, OpenFault::Store)),
        }
    }
}
