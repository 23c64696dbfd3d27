//! The ending of a report, after its rows.
ghost use Rattle.std.specs.Prelude.{◌≡◌, ℕ, IfOk, string_bytes};
ghost use Rattle.reports.specs.Formats.{last_line};
ghost use Rattle.reports.specs.Parts.{ending_text};
ghost use Rattle.reports.specs.Writing.{Sends};

use crate::faults::ReportFault;
use crate::outputs::send;
use saga_core::Format;
use std::alloc::{AllocError, Global};
use std::io::Write;

/// The ending of a report, after its rows.
#[derive(Clone, Copy)]
pub enum Ending<'a> {
    /// This word and the number of rows.
    Count(&'a str),
    /// This text.
    Text(&'a str),
}

impl<'a> Ending<'a> {
    /// The ending of a list in this format: for `Text` this word and the number of rows, and else nothing.
    pub fn of_list(format: Format, what: &'a str) -> Ending<'a>
        ensures ending { (count : ℕ) → ending_text result count ≡ last_line format what.now count }
    {
        match format {
            Format::Text => Ending::Count(what),
            Format::Json | Format::Csv => Ending::Text(""),
        }
    }

    /// Writes the ending after so many rows. After a fault a prefix of it was written.
    pub fn send<W: Write>(&self, alloc: Global, count: u64, out: &mut W) -> Result<(), ReportFault>
        ensures sends { Sends (W.contents out.old) (W.contents out.new)
            (ending_text self.now count) result }
    {
        let text = self.text(alloc, count)?;
        send(out, text.as_bytes())
    }

    /// The text of the ending after so many rows.
    #[tactic(auto, using(std::proofs::Common::string_bytes, std::proofs::Common::decimal, crate::proofs::FillLemmas::two_words))]
    fn text(&self, alloc: Global, count: u64) -> Result<String, AllocError>
        ensures text { IfOk result (λ text. string_bytes text ≡ ending_text self.now count) }
    {
        match *self {
            Ending::Count(what) => format!(in alloc; "{what} {count}\n"),
            Ending::Text(text) => String::from_str(alloc, text),
        }
    }
}
