//! The rows of a report, written one after another.
ghost use Rattle.std.specs.Prelude.{ℕ, List};
ghost use Rattle.std.specs.List.{flat_map};
ghost use Rattle.reports.specs.Formats.{stock_row, unfinished_row};
ghost use Rattle.reports.specs.Objects.{json_line, item_data};
ghost use Rattle.reports.specs.Parts.{item_word};
ghost use Rattle.reports.specs.Records.{csv_line, item_fields};
ghost use Rattle.reports.specs.Writing.{Sends, Writes};

use crate::faults::ReportFault;
use crate::outputs::send;
use crate::{lines, objects, records};
use allotment::{Cell, Held};
use commands::Item;
use saga_core::{Brief, Format, RowSource};
use std::alloc::Global;
use std::io::Write;

/// How the rows of a report are laid out.
pub trait Layout<T> {
    /// The bytes that represent a row.
    ghost shown: { Self → T → List ℕ };

    /// Writes those bytes. After a fault a prefix of them was written.
    fn send_row<W: Write>(&self, alloc: Global, row: &T, out: &mut W) -> Result<(), ReportFault>
        ensures sends { Sends (W.contents out.old) (W.contents out.new)
            (shown self.now row.now) result };
}

impl Layout<(Cell, Held)> for Format {
    ghost shown = { λ format row. stock_row format row };

    #[tactic(auto, using(crate::proofs::FrontLemmas::front_none))]
    fn send_row<W: Write>(
        &self,
        alloc: Global,
        row: &(Cell, Held),
        out: &mut W,
    ) -> Result<(), ReportFault> {
        match self {
            Format::Text => send(out, &lines::stock_line(&row.0, &row.1)),
            Format::Json => send(out, &objects::cell_object(alloc, &row.0, &row.1)?),
            Format::Csv => send(out, &records::cell_record(alloc, &row.0, &row.1)?),
        }
    }
}

impl Layout<Brief> for Format {
    ghost shown = { λ format brief. unfinished_row format brief };

    fn send_row<W: Write>(
        &self,
        alloc: Global,
        row: &Brief,
        out: &mut W,
    ) -> Result<(), ReportFault> {
        match self {
            Format::Text => send(out, lines::journey_line(alloc, row)?.as_bytes()),
            Format::Json => send(out, objects::journey_object(alloc, row)?.as_bytes()),
            Format::Csv => send(out, &records::journey_record(alloc, row)?),
        }
    }
}

/// The items of a history as words, each after one blank.
#[derive(Clone, Copy)]
pub(crate) struct ItemWords;

impl Layout<Item> for ItemWords {
    ghost shown = { λ _ item. item_word item };

    fn send_row<W: Write>(
        &self,
        alloc: Global,
        row: &Item,
        out: &mut W,
    ) -> Result<(), ReportFault> {
        let word = lines::item_word(alloc, row)?;
        send(out, word.as_bytes())
    }
}

/// The items of the history of the journey of this number as JSON objects.
#[derive(Clone, Copy)]
pub(crate) struct ItemObjects {
    pub(crate) id: u64,
}

impl Layout<Item> for ItemObjects {
    ghost shown = { λ journey item. json_line (item_data journey.id item) };

    fn send_row<W: Write>(
        &self,
        alloc: Global,
        row: &Item,
        out: &mut W,
    ) -> Result<(), ReportFault> {
        let object = objects::item_object(alloc, self.id, row)?;
        send(out, object.as_bytes())
    }
}

/// The items of the history of the journey of this number as CSV records.
#[derive(Clone, Copy)]
pub(crate) struct ItemRecords {
    pub(crate) id: u64,
}

impl Layout<Item> for ItemRecords {
    ghost shown = { λ journey item. csv_line (item_fields journey.id item) };

    fn send_row<W: Write>(
        &self,
        alloc: Global,
        row: &Item,
        out: &mut W,
    ) -> Result<(), ReportFault> {
        let record = records::item_record(alloc, self.id, row)?;
        send(out, &record)
    }
}

/// Writes each row in its layout, and returns how many there were.
pub(crate) fn send_rows<T: Drop, L: Layout<T>, R: RowSource<T>, W: Write>(
    alloc: Global,
    layout: &L,
    rows: &mut R,
    out: &mut W,
) -> Result<u64, ReportFault>
    ensures writes { Writes R.RowSource rows.old rows.new (flat_map (L.shown layout.now))
        (W.contents out.old) (W.contents out.new) result }
{
    let mut count = 0u64;
    while let Some(row) = rows.next_row()? {
        layout.send_row(alloc, &row, out)?;
        count += 1;
    }
    Ok(count)
}
