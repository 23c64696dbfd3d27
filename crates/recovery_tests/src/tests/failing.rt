//! A book whose store fails. It promises nothing: it is never sound.
use allotment::{Cell, Held, Night, Want};
use commands::{Agent, Ask, Command, Fault, Item, Key, Reply};
use memory_book::MemBook;
use saga_core::{Book, Brief, Counts, Record, Trace};

/// A desk in memory, and after how many replies its store fails at the next call.
#[derive(Drop)]
pub struct FailingBook {
    book: MemBook,
    left: u64,
    failed: bool,
}

impl FailingBook {
    pub fn new(book: MemBook, left: u64) -> FailingBook {
        FailingBook {
            book,
            left,
            failed: false,
        }
    }

    pub fn into_inner(self) -> MemBook {
        self.book
    }
}

impl Book for FailingBook {
    ghost is_sound = { λ _. ⊥ };

    ghost stands = { λ _ _. ⊥ };

    ghost leaves = { λ _ _ _. ⊥ };

    ghost has_failed = { λ b. b.failed };

    ghost legal = { λ b s h. absurd h };

    ghost settled = { λ b s h. h };

    fn act(&mut self, command: &Command, ask: Option<&Ask>) -> Result<Reply, Fault> {
        if self.failed || self.left == 0 {
            self.failed = true;
            return Err(Fault::Store);
        }
        match self.book.act(command, ask) {
            Ok(reply) => {
                self.left -= 1;
                Ok(reply)
            }
            Err(_) => Err(Fault::Memory),
        }
    }

    fn journey(&mut self, _id: u64) -> Result<Option<Record>, Fault> {
        self.failed = true;
        Err(Fault::Store)
    }

    fn history(&mut self, _id: u64) -> Result<Vec<Item>, Fault> {
        self.failed = true;
        Err(Fault::Store)
    }

    fn first_unfinished(&mut self, after: u64) -> Result<Option<Brief>, Fault> {
        if self.failed || self.left == 0 {
            self.failed = true;
            return Err(Fault::Store);
        }
        match self.book.first_unfinished(after) {
            Ok(brief) => Ok(brief),
            Err(_) => Err(Fault::Memory),
        }
    }

    fn owned(&mut self, _agent: &Agent, _after: u64, _most: usize) -> Result<Vec<Brief>, Fault> {
        self.failed = true;
        Err(Fault::Store)
    }

    fn kept(&mut self, _agent: &Agent, _key: &Key) -> Result<Option<Reply>, Fault> {
        self.failed = true;
        Err(Fault::Store)
    }

    fn counts(&mut self) -> Result<Counts, Fault> {
        self.failed = true;
        Err(Fault::Store)
    }

    fn cells(&mut self, _want: &Want) -> Result<Vec<(Night, Held)>, Fault> {
        self.failed = true;
        Err(Fault::Store)
    }

    fn stock(&mut self) -> Result<Vec<(Cell, Held)>, Fault> {
        self.failed = true;
        Err(Fault::Store)
    }

    fn trace(&mut self, _id: u64) -> Result<Option<Trace>, Fault> {
        self.failed = true;
        Err(Fault::Store)
    }

    fn unfinished(&mut self) -> Result<Vec<Brief>, Fault> {
        self.failed = true;
        Err(Fault::Store)
    }
}
