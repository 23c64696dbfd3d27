//! The desk over a connection, opened and recovered.
ghost use Rattle.std.specs.Prelude.{IfErr, IfOk};
ghost use Rattle.desk_sql.specs.Calls.{Idle};
ghost use Rattle.desk_jobs.specs.Jobs.{NotReady, OpensBook, Readies};
ghost use Rattle.tables.specs.Making.{LetsGo};

use crate::ends::end_of_opening;
use crate::reopenings;
use program_ends::End;
use recovery::{Ready, recover};
use saga_core::ServeFault;
use sqlite::{Alter, Connection};
use std::alloc::Global;
use tables::{TableBook, new_desk_may_act, open_from};

/// Opens the desk of a connection and recovers it. Returns the recovered desk, and how many events recovery made; if
/// that fails, the connection and the end. It is refused only for tables of a version other than the newest; any other end
/// is a fault of memory or of the store.
pub fn ready_over<S: Alter + Drop>(
    alloc: Global,
    conn: Connection<S>,
) -> Result<(Ready<TableBook<S>>, u64), (Connection<S>, End)>
    requires idle { Idle conn }

    ensures ready { IfOk result (λ r. Readies S.Store conn r.0 r.1) }
    ensures failed { IfErr result (λ e. NotReady S.Store conn e.0 e.1) }
{
    reopenings();
    let book = match book_over(alloc, conn) {
        Ok(book) => book,
        Err(failed) => return Err(failed),
    };
    match recover(book) {
        Ok(recovered) => Ok(recovered),
        Err((book, fault)) => Err((
            book.into_store(),
            End::Fault(ServeFault::from(fault).into()),
        )),
    }
}

/// The connection of a recovered desk, as it is.
pub fn let_go<S: Alter + Drop>(desk: Ready<TableBook<S>>) -> Connection<S>
    ensures gone { LetsGo S.Store desk result }
{
    desk.into_inner().into_store()
}

/// Opens the desk of a connection for commands.
fn book_over<S: Alter + Drop>(
    alloc: Global,
    conn: Connection<S>,
) -> Result<TableBook<S>, (Connection<S>, End)>
    requires idle { Idle conn }

    ensures opened { IfOk result (OpensBook S.Store conn) }
    ensures failed { IfErr result (λ e. NotReady S.Store conn e.0 e.1) }
{
    reopenings();
    let opened = match open_from(conn) {
        Ok(opened) => opened,
        Err((conn, fault)) => return Err((conn, end_of_opening(fault))),
    };
    match opened.into_book(alloc) {
        Ok(book) => {
            new_desk_may_act(&book);
            Ok(book)
        }
        Err((opened, fault)) => Err((opened.into_store(), end_of_opening(fault))),
    }
}
