//! The reports of the book over tables. After the store has failed, no call reaches it.
ghost use Rattle.std.specs.Prelude.{◌≡◌, option_map};
ghost use Rattle.report_kinds.specs.Texts.{OfReport};
ghost use Rattle.sql_reads.specs.Reads.{Read};

use crate::books::TableBook;
use crate::books::calls::Look;
use commands::Fault;
use desk_sql::Version;
use report_kinds::Reporting;
use report_writers::write_report;
use reports::ReportFault;
use saga_core::Report;
use sqlite::{Alter, Connection};
use std::alloc::Global;

/// The text of a report of the desk of a connection, made at once; `None` for the report of a journey that does not exist.
fn text_of<S: Alter>(
    alloc: Global,
    report: &Report,
    conn: &mut Connection<S>,
) -> Result<Option<Vec<u8>>, Fault>
    ensures { Read S.Store conn.old conn.new result (λ s found. OfReport report.now s.ledger
        (λ text. option_map (λ bytes. bytes.items) found ≡ text)) }
{
    let mut text = Vec::new(alloc);
    match write_report(alloc, report, Version::Two, conn, &mut text) {
        Ok(true) => Ok(Some(text)),
        Ok(false) => Ok(None),
        Err(ReportFault::Store) => Err(Fault::Store),
        Err(_) => Err(Fault::Memory),
    }
}

/// The text of a report.
#[derive(Drop)]
struct TextOf<'a> {
    report: &'a Report,
}

impl<'a, S: Alter> Look<S> for TextOf<'a> {
    type Shown = Option<Vec<u8>>;

    ghost shows = { λ look s found. OfReport look.report.now s.ledger
        (λ text. option_map (λ bytes. bytes.items) found ≡ text) };

    fn look(self, book: &mut TableBook<S>) -> Result<Option<Vec<u8>>, Fault> {
        text_of(book.alloc, self.report, &mut book.conn)
    }
}

impl<S: Alter> Reporting for TableBook<S> {
    ghost use Rattle.tables.specs.Reading.{Reads};

    fn report(&mut self, report: &Report) -> Result<Option<Vec<u8>>, Fault>
        ensures { Reads S.Store self.old self.new result (λ s found. OfReport report.now s.ledger
            (λ text. option_map (λ bytes. bytes.items) found ≡ text)) }
    {
        self.read(TextOf { report })
    }
}
