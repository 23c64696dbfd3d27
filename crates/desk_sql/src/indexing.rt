//! The index on the agents of the journeys, which the tables may have beside those of their keys.
//!
//! By it the journeys of an agent are found without a look at those of others. It changes no row, and no answer of a query.

ghost use Rattle.std.specs.Prelude.{◌↔◌, IsTrue};
ghost use Rattle.desk_sql.specs.Calls.{GoesOn};
ghost use Rattle.desk_sql.specs.Indexing.{FailsToIndex, HasExtra, Indexes};

use sqlite::{Alter, Error, Transaction};
use sqlite_schema::schema::Schema;

/// How many indexes the keys of the tables have.
const KEYS: usize = 7;

/// Whether a schema has more indexes than those of the desk's keys.
pub fn has_extra_index(schema: &Schema) -> bool
    ensures { IsTrue result ↔ HasExtra schema.now }
{
    schema.indexes.len() > KEYS
}

/// Makes the index on the agents of the journeys. The tables are those of the newest version, and have no index but those of
/// their keys.
pub fn add_index<S: Alter>(tx: &mut Transaction<'_, S>) -> Result<(), Error>
    ensures goes { GoesOn S.Store tx.old.conn tx.new.conn result }
    ensures made { Indexes S.Store tx.old.conn.now tx.new.conn.now result }
    ensures reason { FailsToIndex S.Store tx.old.conn.now tx.new.conn.now result }
{
    tx.execute("CREATE INDEX journey_agent ON journey(agent, id)", &[])?;
    Ok(())
}
