//! Which schema the trees of a database determine.
//!
//! A law is the contract of a function that does nothing: a caller of the function may use the law.
ghost use Rattle.std.specs.Prelude.{◌≡◌};
ghost use Rattle.sqlite_schema.specs.declared.schema.Schema.{Schema};
ghost use Rattle.sqlite_catalog.specs.Listing.{IsSound};
ghost use Rattle.sql_model.specs.SchemaExamples.{note_7, notes_schema};
ghost use Rattle.sql_model.specs.Schemas.{OneSchema};

/// Trees that list a schema without views list no other schema. So what a crash leaves, which is known by its trees
/// alone, has one schema, and the next opening finds that schema.
pub fn schemas()
    ensures one { OneSchema }
{}

/// The law of schemas, applied to a database with one table and one row.
///
/// The proof applies the law to that database. A law with one more premise, which the database does not meet, is
/// refused here.
pub fn schema_of_notes()
    ensures one { (other : Schema) → IsSound other note_7 → other ≡ notes_schema }
{
    schemas();
}
