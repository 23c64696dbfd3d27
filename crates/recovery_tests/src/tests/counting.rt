//! A book that counts the reads of an unfinished journey before its first command. It promises nothing: it is never
//! sound.
use allotment::{Cell, Held, Night, Want};
use commands::{Agent, Ask, Command, Fault, Item, Key, Reply};
use saga_core::{Book, Brief, Counts, Record, Trace};

/// A book, and how many such reads came before its first command.
#[derive(Drop)]
pub struct CountingBook<B> {
    book: B,
    looks: u64,
    has_acted: bool,
}

impl<B> CountingBook<B> {
    pub fn new(book: B) -> CountingBook<B> {
        CountingBook {
            book,
            looks: 0,
            has_acted: false,
        }
    }

    pub fn looks(&self) -> u64 {
        self.looks
    }

    pub fn into_inner(self) -> B {
        self.book
    }
}

impl<B: Book> Book for CountingBook<B> {
    ghost is_sound = { λ _. ⊥ };

    ghost stands = { λ _ _. ⊥ };

    ghost leaves = { λ _ _ _. ⊥ };

    ghost has_failed = { λ b. B.has_failed b.book };

    ghost legal = { λ b s h. absurd h };

    ghost settled = { λ b s h. h };

    fn act(&mut self, command: &Command, ask: Option<&Ask>) -> Result<Reply, Fault> {
        self.has_acted = true;
        self.book.act(command, ask)
    }

    fn journey(&mut self, id: u64) -> Result<Option<Record>, Fault> {
        self.book.journey(id)
    }

    fn history(&mut self, id: u64) -> Result<Vec<Item>, Fault> {
        self.book.history(id)
    }

    fn first_unfinished(&mut self, after: u64) -> Result<Option<Brief>, Fault> {
        if !self.has_acted {
            self.looks = self.looks.saturating_add(1);
        }
        self.book.first_unfinished(after)
    }

    fn owned(&mut self, agent: &Agent, after: u64, most: usize) -> Result<Vec<Brief>, Fault> {
        self.book.owned(agent, after, most)
    }

    fn kept(&mut self, agent: &Agent, key: &Key) -> Result<Option<Reply>, Fault> {
        self.book.kept(agent, key)
    }

    fn counts(&mut self) -> Result<Counts, Fault> {
        self.book.counts()
    }

    fn cells(&mut self, want: &Want) -> Result<Vec<(Night, Held)>, Fault> {
        self.book.cells(want)
    }

    fn stock(&mut self) -> Result<Vec<(Cell, Held)>, Fault> {
        self.book.stock()
    }

    fn trace(&mut self, id: u64) -> Result<Option<Trace>, Fault> {
        self.book.trace(id)
    }

    fn unfinished(&mut self) -> Result<Vec<Brief>, Fault> {
        self.book.unfinished()
    }
}
