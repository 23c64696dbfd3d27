//! The call of a book that returns a report.
use commands::Fault;
use saga_core::{Book, Report};

/// A book that returns each report of what it represents.
pub trait Reporting: Book {
    ghost use Rattle.saga_core.specs.Books.{Shows};
    ghost use Rattle.saga_core.specs.Calls.{Reads};
    ghost use Rattle.std.specs.Prelude.{◌≡◌, option_map};
    ghost use Rattle.report_kinds.specs.Texts.{OfReport};

    /// Returns the text of a report; `None` for the report of a journey that does not exist.
    fn report(&mut self, report: &Report) -> Result<Option<Vec<u8>>, Fault>
        ensures text { Self.is_sound self.new →
            Shows (Self.stands self.old) (λ s found. OfReport report.now s.ledger
            (λ text. option_map (λ bytes. bytes.items) found ≡ text)) result }
        ensures reads { Reads Self.is_sound Self.stands Self.leaves Self.has_failed Self.may_act
            Self.has_reason self.old self.new result };
}
