//! The rows of a file as text, and whether they are those that were written into it, under the old schema or the new one.
use crate::tests::helping::{holds, open_for};
use crate::tests::old_files::{OldFile, Written};
use memory_files::Session;
use sqlite::types::ValueRef;
use sqlite::{Alter, Connection, Row};
use std::alloc::Global;
use std::process::Abort;
use std::str;
use std::test::Fail;

// the tables that migration does not change, each in the order of its key
static SAME: [&str; 5] = [
    "SELECT * FROM stock ORDER BY kind, supplier, product, night",
    "SELECT * FROM batch ORDER BY name",
    "SELECT * FROM journey ORDER BY id",
    "SELECT * FROM step ORDER BY journey, place, opt",
    "SELECT * FROM answer ORDER BY agent, mark",
];

const TABLES: &str = "SELECT name FROM sqlite_schema WHERE type = 'table' ORDER BY name";

const OLD: &str = "answer\nbatch\nentry\njourney\nmeta\nstep\nstock\n";

const NEW: &str = "answer\nbatch\nentry\nentry2\njourney\nmark\nmeta\nstep\nstock\n";

/// The rows of a statement's result, a line each, with a bar between two values.
pub fn rows<S: Alter>(
    alloc: Global,
    conn: &mut Connection<S>,
    statement: &str,
) -> Result<String, Fail> {
    let mut text = String::new(alloc);
    for row in &conn.query_all(statement, &[])? {
        push_row(&mut text, row)?;
    }
    Ok(text)
}

fn push_row(text: &mut String, row: &Row) -> Result<(), Fail> {
    for at in 0..row.column_count() {
        if at > 0 {
            text.push('|')?;
        }
        match row.get_ref(at)? {
            ValueRef::Int(number) => write!(text, "{number}")?,
            ValueRef::Text(bytes) | ValueRef::Blob(bytes) => text.push_str(str::from_utf8(bytes)?)?,
            ValueRef::Null | ValueRef::Real(_) => text.push('?')?,
        }
    }
    text.push('\n')?;
    Ok(())
}

/// The rows of the tables that migration does not change.
pub fn same_rows<S: Alter>(alloc: Global, conn: &mut Connection<S>) -> Result<String, Fail> {
    let mut text = String::new(alloc);
    for statement in &SAME {
        text.push_str(rows(alloc, conn, statement)?.as_str())?;
    }
    Ok(text)
}

/// The schema of a file.
#[derive(Clone, Copy, Debug, PartialEq, Eq)]
pub enum Schema {
    Old,
    New,
}

/// The contents that a file must have under either schema.
#[derive(Drop)]
pub struct Held<'a> {
    pub written: &'a Written,
    /// The rows of the tables that migration does not change.
    pub same: String,
}

impl Held<'_> {
    /// Checks that the file has these contents under one of the schemas, and nothing else. Returns that schema.
    pub fn is_found<S: Alter>(
        &self,
        rt: &impl Abort,
        alloc: Global,
        conn: &mut Connection<S>,
    ) -> Result<Schema, Fail> {
        let tables = rows(alloc, conn, TABLES)?;
        let schema = if tables.as_str() == NEW {
            self.has_new_items(rt, alloc, conn)?;
            Schema::New
        } else {
            holds(rt, "the old tables", tables.as_str() == OLD);
            Schema::Old
        };
        let version = if schema == Schema::New { 2u8 } else { 1 };
        let Written {
            events,
            journeys,
            items,
        } = self.written;
        let meta = format!(in alloc; "1|{version}|{events}|{journeys}\n")?;
        let found = rows(alloc, conn, "SELECT * FROM meta")?;
        assert_eq!(rt; found.as_str(), meta.as_str());
        let old = rows(alloc, conn, "SELECT * FROM entry ORDER BY num")?;
        holds(rt, "the old items", old.as_str() == items.as_str());
        let same = same_rows(alloc, conn)?;
        holds(rt, "the other rows", same.as_str() == self.same.as_str());
        Ok(schema)
    }

    /// Checks that the items are in the new table too, and that no save-point was taken.
    fn has_new_items<S: Alter>(
        &self,
        rt: &impl Abort,
        alloc: Global,
        conn: &mut Connection<S>,
    ) -> Result<(), Fail> {
        let items = rows(alloc, conn, "SELECT * FROM entry2 ORDER BY num")?;
        holds(
            rt,
            "the new items",
            items.as_str() == self.written.items.as_str(),
        );
        let marks = rows(alloc, conn, "SELECT * FROM mark")?;
        holds(rt, "no marks", marks.is_empty());
        Ok(())
    }
}

/// Reads the rows of the tables that migration does not change.
#[derive(Drop)]
struct SameRows {
    same: String,
}

impl<R: Abort> Session<R> for SameRows {
    fn run<S: Alter + Drop>(
        &mut self,
        _rt: &R,
        alloc: Global,
        mut conn: Connection<S>,
    ) -> Result<Connection<S>, Fail> {
        self.same = same_rows(alloc, &mut conn)?;
        Ok(conn)
    }
}

/// The contents of an old file, read before anything else is done with it.
pub fn held_in<'a>(rt: &impl Abort, alloc: Global, file: &'a OldFile) -> Result<Held<'a>, Fail> {
    let mut rows = SameRows {
        same: String::new(alloc),
    };
    open_for(rt, alloc, &[], file.bytes(), &mut rows)?;
    Ok(Held {
        written: &file.written,
        same: rows.same,
    })
}
