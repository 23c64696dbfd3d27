//! What the tests share: a plan, requests, and checks.
ghost use Rattle.std.specs.Prelude.{◌≡◌, false, None, IsTrue, IfOk, OnOk};
ghost use Rattle.desk_sql.specs.Calls.{Idle};

use commands::{Agent, Ask, Command, Fault, Key, Reply};
use plan::{Plan, PlanFault};
use saga_core::Book;
use sqlite::{Alter, Connection, Error};
use std::alloc::Global;
use std::process::Abort;
use std::test::Fail;
use tables::{OpenFault, TableBook, open_from};

/// Two steps, the first with a mark, the second with two options.
pub const PLAN: &str = "F/AL/A1/2030-06-01/1/2*;R/INN/A/2030-06-01/2/3|R/INN/B/2030-06-02/1/4!5";

/// An agent, a key and a text.
pub type Asking<'a> = (&'a str, &'a str, &'a str);

/// The first request of an agent.
pub const ANN: Asking<'static> = ("ann", "k1", "begin");

/// Stops the test if this is false.
pub fn holds(rt: &impl Abort, case: &str, is_so: bool)
    ensures { IsTrue is_so }
{
    assert!(rt; is_so, "{case}");
}

/// Stops the test if another line was answered.
pub fn says(rt: &impl Abort, alloc: Global, reply: &Reply, expected: &str) -> Result<(), Fail> {
    let line = reply.line(alloc)?;
    assert_eq!(rt; line.as_str(), expected);
    Ok(())
}

/// Stops the test if a number of rows is not the expected one.
pub fn counts<S: Alter>(
    rt: &impl Abort,
    conn: &mut Connection<S>,
    rows: &[(&str, i64)],
) -> Result<(), Fail> {
    for &(counted, expected) in rows {
        let found: i64 = conn.query_row(counted, &[])?.get(0)?;
        assert_eq!(rt; found, expected, "{counted}");
    }
    Ok(())
}

/// The command that begins a journey of this plan.
pub fn begin(alloc: Global, line: &str) -> Result<Command, PlanFault> {
    Ok(Command::Begin(Plan::from_line(alloc, line)?))
}

/// The desk over the store of a connection.
pub fn book_over<S: Alter + Drop>(
    alloc: Global,
    conn: Connection<S>,
) -> Result<TableBook<S>, OpenFault>
    requires idle { Idle conn }

    ensures idle { IfOk result (λ b. Idle b.conn) }
{
    match open_from(conn) {
        Ok(opened) => match opened.into_book(alloc) {
            Ok(book) => Ok(book),
            Err((_, fault)) => Err(fault),
        },
        Err((_, fault)) => Err(fault),
    }
}

/// A connection whose store has the desk's tables.
pub fn opened<S: Alter + Drop>(
    alloc: Global,
    conn: Connection<S>,
) -> Result<Connection<S>, OpenFault>
    requires idle { Idle conn }

    ensures idle { IfOk result Idle }
{
    match book_over(alloc, conn) {
        Ok(book) => Ok(book.into_store()),
        Err(fault) => Err(fault),
    }
}

/// The reply to an agent.
pub fn told<S: Alter>(
    alloc: Global,
    book: &mut TableBook<S>,
    command: &Command,
    asking: Asking<'_>,
) -> Result<Reply, Fault> {
    let (agent, key, text) = asking;
    let (Some(agent), Some(key)) = (Agent::parse(agent), Key::parse(key)) else {
        return Err(Fault::Memory);
    };
    let Ok(text) = Vec::from_slice(alloc, text.as_bytes()) else {
        return Err(Fault::Memory);
    };
    book.act(command, Some(&Ask::new(agent, key, text)))
}

/// Runs the texts in one transaction.
pub fn run<S: Alter>(conn: &mut Connection<S>, texts: &str) -> Result<(), Error>
    requires idle { Idle conn.old }

    ensures outside { OnOk result (conn.new.in_transaction ≡ false) }
    ensures unlimited { conn.new.step_limit ≡ None }
{
    let mut tx = conn.transaction();
    tx.execute_batch(texts)?;
    tx.commit()
}
