//! Loads of batches.
ghost use Rattle.std.specs.Prelude.{◌≡◌};
ghost use Rattle.ledger.specs.Replies.{are_same_rows, answer_known, loaded as reply_to};

use crate::mem_book::MemBook;
use allotment::Row;
use commands::{Ask, Batch, Name, Refusal, Reply};
use std::alloc::AllocError;

/// Whether these are the same cells with the same places, in the same order.
fn has_same_rows(rows: &[Row], known: &[Row]) -> bool
    ensures same { result ≡ are_same_rows rows.now known.now }
{
    rows == known
}

/// The reply to a batch that is loaded.
fn loaded(batch: &Batch) -> Reply
    ensures loaded { result ≡ reply_to batch.now.name batch.now.rows }
{
    Reply::Loaded {
        name: batch.name(),
        rows: batch.rows().len(),
    }
}

/// The reply to a batch whose name is known, with the same rows or with others.
fn loaded_again(batch: &Batch, known: &Batch) -> Reply
    ensures again { result
        ≡ (answer_known batch.now.name batch.now.rows known.now.rows).reply }
{
    if has_same_rows(batch.rows(), known.rows()) {
        loaded(batch)
    } else {
        Reply::Refused(Refusal::BatchDiffers)
    }
}

impl MemBook {
    ghost use Rattle.std.specs.Prelude.{◌≡◌, [], find, bytes_eq, None};
    ghost use Rattle.ledger.specs.Answer.{State, answer, asker, limited};
    ghost use Rattle.ledger.specs.Replies.{answer_new};
    ghost use Rattle.ledger.specs.Ledger.{batches_named};
    ghost use Rattle.memory_book.specs.Memory.{StandsFor, Carried, CarriesOut};
    ghost use Rattle.std.specs.Option.{option_copied};
    ghost use Rattle.commands.specs.Request as request;

    /// The batch of this name. Returns `None` if none was loaded.
    fn batch_named(&self, name: Name) -> Option<&Batch>
        ensures first { option_copied result
            ≡ find (λ b. bytes_eq b.name name) self.now.batches.items }
    {
        self.batches.iter().find(|batch| batch.name() == name)
    }

    /// Loads a batch. A batch whose name is known changes nothing, nor does one with a row below what journeys hold.
    pub fn load(&mut self, batch: &Batch, ask: Option<&Ask>) -> Result<Reply, AllocError>
        ensures { CarriesOut self.old self.new (option_copied ask.entry)
            (request.Load batch.now.name batch.now.rows) result }
    {
        match self.batch_named(batch.name()) {
            Some(known) => Ok(loaded_again(batch, known)),
            None => self.load_new(batch, ask),
        }
    }

    /// Loads a batch whose name is new, unless a row of it is below what journeys hold.
    fn load_new(&mut self, batch: &Batch, ask: Option<&Ask>) -> Result<Reply, AllocError>
        ensures { (s : State) → StandsFor self.old s →
            batches_named s.ledger batch.now.name ≡ [] →
            Carried self.new s (option_copied ask.entry)
            (answer s.ledger (asker (option_copied ask.entry))
            (request.Load batch.now.name batch.now.rows)) result }
    {
        match self.stock.first_below_held(batch.rows()) {
            Some(place) => Ok(Reply::Refused(Refusal::BelowHeld { row: place + 1 })),
            None => self.load_fitting(batch, ask),
        }
    }

    /// Loads a batch, if the ledger has room. Its caller has found no row of it that is below what journeys hold.
    fn load_fitting(&mut self, batch: &Batch, ask: Option<&Ask>) -> Result<Reply, AllocError>
        ensures { (s : State) → StandsFor self.old s →
            answer s.ledger (asker (option_copied ask.entry))
            (request.Load batch.now.name batch.now.rows)
            ≡ limited s.ledger (answer_new batch.now.name batch.now.rows None) →
            Carried self.new s (option_copied ask.entry)
            (answer s.ledger (asker (option_copied ask.entry))
            (request.Load batch.now.name batch.now.rows)) result }
    {
        if self.is_full() {
            return Ok(Reply::Refused(Refusal::Limit));
        }
        let stock = self.stock.loaded(batch.rows())?;
        let copy = batch.clone(self.alloc)?;
        self.batches.reserve(1)?;
        self.answers.keep(self.alloc, ask, loaded(batch))?;
        self.batches.push_reserved(copy);
        self.stock = stock;
        self.events += 1;
        Ok(loaded(batch))
    }
}
