//! Laws of the state after each execution, and of each connection that is opened over a desk's trees.
//!
//! A law is the contract of a function that does nothing: a caller of the function may use the law.
ghost use Rattle.std.specs.Prelude.{◌≡◌};
ghost use Rattle.sqlite_trees.specs.Tree.{no_trees};
ghost use Rattle.sqlite.specs.Held.{state};
ghost use Rattle.sqlite.specs.State.{HasCleanDisk, IsLive, Opens};
ghost use Rattle.ledger.specs.Answer.{start};
ghost use Rattle.ledger.specs.KeyExamples.{step_cut_off};
ghost use Rattle.ledger.specs.World.{after};
ghost use Rattle.desk_sql.specs.declared.versions.Version.TheVariants.{Two};
ghost use Rattle.sql_model.specs.Keeping.{StoodFor};
ghost use Rattle.sql_model.specs.Openings.{LeavesOnly, StandsAsOpened};
ghost use Rattle.sql_model.specs.Standing.{IsDesk};
ghost use Rattle.sql_model.specs.Worlds.{EachWorldIsADesk};

use crate::one_schema::schemas;
use sqlite::{Alter, Connection};

/// After each execution the ledger is legal, and its kept replies can be read from their lines.
pub fn desks()
    ensures desk { EachWorldIsADesk }
{}

/// A connection that was just opened represents the state that its trees mean: the trees list the desk's schema, so the
/// connection has found that schema.
pub fn openings<S: Alter>(conn: &Connection<S>)
    ensures stands { StandsAsOpened S.Store conn.now }
{
    schemas();
}

/// The law of desks, applied to an execution in which a crash cuts off a step, and the step is retried under its key.
///
/// The proof applies the law to that execution. A law with one more premise, which the execution does not meet, is
/// refused here.
pub fn desk_after_a_crash()
    ensures desk { IsDesk (after start step_cut_off) }
{
    desks();
}

/// The law of openings, applied to a connection that was opened over a store without tables: it represents a new desk.
///
/// The proof applies the law to that connection. A law with one more premise, which the connection does not meet, is
/// refused here.
pub fn new_desk_is_found<S: Alter>(conn: &Connection<S>)
    requires opened { HasCleanDisk (state S.Store conn.now)
        → Opens (state S.Store conn.now) × IsLive (state S.Store conn.now) }
    requires only { LeavesOnly (state S.Store conn.now) }
    requires empty { HasCleanDisk (state S.Store conn.now)
        → (state S.Store conn.now).now.trees ≡ no_trees }

    ensures found { StoodFor Two (state S.Store conn.now) start }
{
    openings(conn);
}
