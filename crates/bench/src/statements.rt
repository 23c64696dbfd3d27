//! Statements of the database alone, without the desk.
//!
//! The input is a list of records. The byte 30 ends a record, and the byte 31 separates its fields: a word, and what it
//! concerns. `prepare` has a statement, which gets the next number, from 0; `execute` and `query` have a number and the
//! values of its parameters; `skip` has the same, and only reads them. A value is `i` and a decimal number, `t` and a
//! text, or `b` and bytes.
use sqlite::types::ValueRef;
use sqlite::{Alter, Connection, Statement};
use std::alloc::Global;
use std::io::{self, ErrorKind};

/// The character that ends a record, and the one that separates its fields.
const END: char = '\u{1e}';

const SEPARATOR: char = '\u{1f}';

/// Executes the statements of standard input over the database of a file, and prints how many rows they returned or
/// changed.
pub(crate) fn run_statements(rt: &HostRuntime, file: &str) -> io::Result<()> {
    let input = io::read_to_string(rt.alloc(), rt.stdin())?;
    let Ok(mut conn) = Connection::open(rt, file) else {
        return Err(fault());
    };
    let rows = run_all(rt.alloc(), &mut conn, input.as_str());
    let _ = conn.close();
    let rows = rows?;
    println!(rt; "rows {rows}")
}

/// Executes all records, and returns how many rows they returned or changed.
fn run_all<S: Alter>(alloc: Global, conn: &mut Connection<S>, input: &str) -> io::Result<usize> {
    let mut prepared = Vec::new(alloc);
    let mut rows = 0usize;
    for record in input.split_terminator(END) {
        let mut fields = record.split(SEPARATOR);
        let (Some(word), Some(about)) = (fields.next(), fields.next()) else {
            return Err(fault());
        };
        if word == "prepare" {
            let Ok(statement) = conn.prepare(about) else {
                return Err(fault());
            };
            prepared.push(statement)?;
        } else {
            let Some(statement) = statement_of(&prepared, about) else {
                return Err(fault());
            };
            let mut values = Vec::new(alloc);
            for field in fields {
                values.push(value_of(field)?)?;
            }
            rows = rows.wrapping_add(run(conn, word, statement, &values)?);
        }
    }
    Ok(rows)
}

/// The statement of this number.
fn statement_of<'a>(prepared: &'a [Statement], number: &str) -> Option<&'a Statement> {
    let number = number.parse::<usize>().ok()?;
    prepared.get(number)
}

/// The value of a field.
fn value_of(field: &str) -> io::Result<ValueRef<'_>> {
    if let Some(number) = field.strip_prefix('i') {
        return match number.parse::<i64>() {
            Ok(number) => Ok(ValueRef::Int(number)),
            Err(_) => Err(fault()),
        };
    }
    if let Some(text) = field.strip_prefix('t') {
        return Ok(ValueRef::Text(text.as_bytes()));
    }
    match field.strip_prefix('b') {
        Some(bytes) => Ok(ValueRef::Blob(bytes.as_bytes())),
        None => Err(fault()),
    }
}

/// Does what the word says with a statement, and returns how many rows it changed or returned.
fn run<S: Alter>(
    conn: &mut Connection<S>,
    word: &str,
    statement: &Statement,
    values: &[ValueRef<'_>],
) -> io::Result<usize> {
    let rows = match word {
        "execute" => statement.execute(conn, values).ok(),
        "query" => count_rows(conn, statement, values),
        "skip" => Some(0),
        _ => None,
    };
    match rows {
        Some(rows) => Ok(rows),
        None => Err(fault()),
    }
}

/// Takes the rows of a statement, one after another, and returns how many there are.
fn count_rows<S: Alter>(
    conn: &mut Connection<S>,
    statement: &Statement,
    values: &[ValueRef<'_>],
) -> Option<usize> {
    let mut rows = statement.query(conn, values).ok()?;
    for count in 0..usize::MAX {
        if rows.next().ok()?.is_none() {
            return Some(count);
        }
    }
    None
}

/// The error that represents every fault.
fn fault() -> io::Error {
    io::Error::from(ErrorKind::Other)
}
