//! The creation of the tables, in a store that has none.

ghost use Rattle.std.specs.Prelude.{◌≡◌, ◌↔◌, IsTrue};
ghost use Rattle.desk_sql.specs.Calls.{Founds, GoesOn};
ghost use Rattle.desk_sql.specs.Causes.{FailsToBuild};
ghost use Rattle.desk_sql.specs.Changes.{founded};
ghost use Rattle.desk_sql.specs.Schema.{no_schema};

use crate::indexing::add_index;
use crate::meta::insert_meta;
use sqlite::{Alter, Error, Transaction};
use sqlite_schema::schema::Schema;

/// The texts that create the tables, in this order.
const TABLES: [&str; 9] = [
    "CREATE TABLE meta(one INTEGER PRIMARY KEY CHECK(one = 1), version INTEGER NOT NULL, events INTEGER NOT NULL, journeys INTEGER NOT NULL) STRICT",
    "CREATE TABLE stock(kind INTEGER NOT NULL CHECK(kind BETWEEN 0 AND 3), supplier TEXT NOT NULL, product TEXT NOT NULL, night INTEGER NOT NULL, allot INTEGER NOT NULL, free INTEGER NOT NULL CHECK(free >= 0 AND free <= allot), PRIMARY KEY(kind, supplier, product, night)) STRICT",
    "CREATE TABLE batch(name TEXT NOT NULL PRIMARY KEY, num INTEGER NOT NULL UNIQUE, content BLOB NOT NULL) STRICT",
    "CREATE TABLE journey(id INTEGER PRIMARY KEY, num INTEGER NOT NULL UNIQUE, agent TEXT NOT NULL, steps INTEGER NOT NULL, tries INTEGER NOT NULL, pos INTEGER NOT NULL, phase INTEGER NOT NULL CHECK(phase BETWEEN 0 AND 3), target INTEGER NOT NULL, used INTEGER NOT NULL) STRICT",
    "CREATE TABLE step(journey INTEGER NOT NULL REFERENCES journey(id), place INTEGER NOT NULL, opt INTEGER NOT NULL, save INTEGER NOT NULL CHECK(save IN (0, 1)), taken INTEGER NOT NULL CHECK(taken IN (0, 1)), kind INTEGER NOT NULL, supplier TEXT NOT NULL, product TEXT NOT NULL, night INTEGER NOT NULL, nights INTEGER NOT NULL, places INTEGER NOT NULL, PRIMARY KEY(journey, place, opt)) STRICT",
    "CREATE TABLE entry(num INTEGER PRIMARY KEY, journey INTEGER NOT NULL REFERENCES journey(id), item INTEGER NOT NULL CHECK(item BETWEEN 0 AND 2), a INTEGER NOT NULL, b INTEGER NOT NULL) STRICT",
    "CREATE TABLE answer(agent TEXT NOT NULL, mark TEXT NOT NULL, ask BLOB NOT NULL, reply TEXT NOT NULL, PRIMARY KEY(agent, mark)) STRICT",
    "CREATE TABLE entry2(num INTEGER PRIMARY KEY, journey INTEGER NOT NULL REFERENCES journey(id), item INTEGER NOT NULL CHECK(item BETWEEN 0 AND 3), a INTEGER NOT NULL, b INTEGER NOT NULL) STRICT",
    "CREATE TABLE mark(journey INTEGER NOT NULL REFERENCES journey(id), pos INTEGER NOT NULL, PRIMARY KEY(journey, pos)) STRICT",
];

/// Whether a store with this schema has no tables.
pub fn has_no_tables(schema: &Schema) -> bool
    ensures { IsTrue result ↔ schema.now ≡ no_schema }
{
    schema.tables.is_empty() && schema.indexes.is_empty() && schema.views.is_empty()
}

/// Creates all tables, with the index on the agents of the journeys and the row of `meta` of schema 2, in a store that has no
/// table.
pub fn make_tables<S: Alter>(tx: &mut Transaction<'_, S>) -> Result<(), Error>
    ensures goes { GoesOn S.Store tx.old.conn tx.new.conn result }
    ensures made { Founds S.Store tx.old.conn.now tx.new.conn.now result founded }
    ensures reason { FailsToBuild S.Store tx.old.conn.now tx.new.conn.now no_schema result }
{
    for text in TABLES {
        tx.execute(text, &[])?;
    }
    add_index(tx)?;
    insert_meta(tx, 2)?;
    Ok(())
}
