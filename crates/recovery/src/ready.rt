//! A book that is recovered.
ghost use Rattle.std.specs.Prelude.{◌≡◌};

use allotment::{Cell, Held, Night, Want};
use commands::{Agent, Ask, Command, Fault, Item, Key, Reply};
use report_kinds::Reporting;
use saga_core::{Book, Brief, Counts, Record, Report, Trace};
use std::marker::Model;

/// A book that is recovered. Only `recover` makes one. In a contract it is the book itself.
#[derive(Drop)]
pub struct Ready<B> {
    book: B,
}

impl<B> Model for Ready<B> {
    ghost Value = { B };

    ghost view = { λ r. r.book };
}

impl<B> Ready<B> {
    /// Marks this book as recovered. Only `recover` calls this.
    pub(crate) fn new(book: B) -> Ready<B>
        ensures same { result ≡ book }
    {
        Ready { book }
    }

    /// The book itself.
    pub fn into_inner(self) -> B
        ensures same { result ≡ self }
    {
        self.book
    }
}

impl<B: Book> Book for Ready<B> {
    ghost is_sound = { λ r. B.is_sound r };

    ghost stands = { λ r s. B.stands r s };

    ghost leaves = { λ r s t. B.leaves r s t };

    ghost has_failed = { λ r. B.has_failed r };

    ghost may_act = { λ first r s asks. B.may_act first r s asks };

    ghost has_reason = { λ first r s next. B.has_reason first r s next };

    ghost legal = { λ r s h. B.legal r s h };

    ghost settled = { λ r s h. B.settled r s h };

    fn act(&mut self, command: &Command, ask: Option<&Ask>) -> Result<Reply, Fault> {
        self.book.act(command, ask)
    }

    fn journey(&mut self, id: u64) -> Result<Option<Record>, Fault> {
        self.book.journey(id)
    }

    fn history(&mut self, id: u64) -> Result<Vec<Item>, Fault> {
        self.book.history(id)
    }

    fn first_unfinished(&mut self, after: u64) -> Result<Option<Brief>, Fault> {
        self.book.first_unfinished(after)
    }

    fn owned(&mut self, agent: &Agent, after: u64, most: usize) -> Result<Vec<Brief>, Fault> {
        self.book.owned(agent, after, most)
    }

    fn kept(&mut self, agent: &Agent, key: &Key) -> Result<Option<Reply>, Fault> {
        self.book.kept(agent, key)
    }

    fn counts(&mut self) -> Result<Counts, Fault> {
        self.book.counts()
    }

    fn cells(&mut self, want: &Want) -> Result<Vec<(Night, Held)>, Fault> {
        self.book.cells(want)
    }

    fn stock(&mut self) -> Result<Vec<(Cell, Held)>, Fault> {
        self.book.stock()
    }

    fn trace(&mut self, id: u64) -> Result<Option<Trace>, Fault> {
        self.book.trace(id)
    }

    fn unfinished(&mut self) -> Result<Vec<Brief>, Fault> {
        self.book.unfinished()
    }
}

impl<B: Reporting> Reporting for Ready<B> {
    fn report(&mut self, report: &Report) -> Result<Option<Vec<u8>>, Fault> {
        self.book.report(report)
    }
}
