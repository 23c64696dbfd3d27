//! The line of a month in a summary, in each format.
ghost use Rattle.std.specs.Prelude.{◌≡◌, [], ◌∷◌, ◌++◌, decimal, IfOk, string_bytes};
ghost use Rattle.allotment.specs.Texts.{kind_word};
ghost use Rattle.reports.specs.Objects.{json_line};
ghost use Rattle.reports.specs.Records.{csv_line};
ghost use Rattle.serde_json.specs.View.{view};
ghost use Rattle.month_reports.specs.Summaries.{month_text, product_columns, summary_data, summary_fields, summary_head, summary_line, summary_row, sums_columns};

use crate::months::MonthRead;
use crate::sums::{Sums, sums_of};
use allotment::{Cell, Night};
use commands::{put_text, put_whole};
use reports::{Fields, json_line};
use saga_core::Format;
use serde_json::{Map, Value};
use std::alloc::{AllocError, Global};

/// The heading of a summary in this format.
#[tactic(auto, unfolding(csv::specs::Writing::escaped, csv::specs::Writing::fields_text, csv::specs::Writing::is_blank))]
pub(crate) fn summary_head(format: Format) -> &'static str
    ensures head { result.now ≡ summary_head format }
{
    match format {
        Format::Text => { "kind     supplier product  month   nights    allot     held     free\n" }
        Format::Json => "",
        Format::Csv => "kind,supplier,product,month,nights,allot,held,free\r\n",
    }
}

/// The line of a month in this format.
pub(crate) fn summary_row(
    alloc: Global,
    format: Format,
    month: &MonthRead,
) -> Result<Vec<u8>, AllocError>
    ensures row { IfOk result (λ bytes. bytes.items ≡ summary_row format month.now.cells.items) }
{
    let Some((cell, _)) = month.cells.first() else {
        return Ok(Vec::new(alloc));
    };
    let sums = sums_of(month);
    match format {
        Format::Text => Ok(summary_line(alloc, cell, &sums)?.into_bytes()),
        Format::Json => Ok(summary_object(alloc, cell, &sums)?.into_bytes()),
        Format::Csv => summary_record(alloc, cell, &sums),
    }
}

/// The line of a month with these sums, of which a cell is this one.
#[tactic(auto, using(std::proofs::Common::string_bytes, crate::proofs::CalendarLemmas::summary_parts))]
fn summary_line(alloc: Global, cell: &Cell, sums: &Sums) -> Result<String, AllocError>
    ensures line { IfOk result (λ text. string_bytes text ≡ summary_line cell.now sums.now) }
{
    let month = month_text(alloc, cell.night)?;
    let cell = product_columns(alloc, cell)?;
    let sums = sums_columns(alloc, sums)?;
    format!(in alloc; "{cell} {month} {sums}\n")
}

/// The columns of a product: its kind, supplier and name.
#[tactic(auto, using(std::proofs::Common::string_bytes, std::proofs::Common::append_assoc, reports::proofs::FillLemmas::kind_left, reports::proofs::FillLemmas::code_left))]
pub(crate) fn product_columns(alloc: Global, cell: &Cell) -> Result<String, AllocError>
    ensures columns { IfOk result (λ text. string_bytes text ≡ product_columns cell.now) }
{
    let kind = cell.kind.word();
    let supplier = cell.supplier.as_str();
    let product = cell.product.as_str();
    format!(in alloc; "{kind:<8} {supplier:<8} {product:<8}")
}

/// The columns of sums: nights, and allotted, held and free places.
#[tactic(auto, using(reports::proofs::FillLemmas::laid_out))]
fn sums_columns(alloc: Global, sums: &Sums) -> Result<String, AllocError>
    ensures columns { IfOk result (λ text. string_bytes text ≡ sums_columns sums.now) }
{
    let Sums {
        nights,
        allot,
        held,
        free,
    } = *sums;
    format!(in alloc; "{nights:>6} {allot:>8} {held:>8} {free:>8}")
}

/// The text of a night's month, as `2030-06`.
pub(crate) fn month_text(alloc: Global, night: Night) -> Result<String, AllocError>
    ensures text { IfOk result (λ text. string_bytes text ≡ month_text night) }
{
    let mut text = night.text(alloc)?;
    text.truncate(7);
    Ok(text)
}

/// The same line as an object.
fn summary_object(alloc: Global, cell: &Cell, sums: &Sums) -> Result<String, AllocError>
    ensures line { IfOk result
        (λ text. string_bytes text ≡ json_line (summary_data cell.now sums.now)) }
{
    let month = month_text(alloc, cell.night)?;
    let value = summary_value(alloc, cell, month.as_str(), sums)?;
    json_line(alloc, &value)
}

/// The value of a month with this text and these sums, of which a cell is this one.
fn summary_value(alloc: Global, cell: &Cell, month: &str, sums: &Sums) -> Result<Value, AllocError>
    ensures value { month.now ≡ month_text cell.now.night →
        IfOk result (λ value. view value ≡ summary_data cell.now sums.now) }
{
    let mut members = Map::new(alloc);
    put_whole(alloc, &mut members, "allot", sums.allot)?;
    put_whole(alloc, &mut members, "free", sums.free)?;
    put_whole(alloc, &mut members, "held", sums.held)?;
    put_text(alloc, &mut members, "kind", cell.kind.word())?;
    put_text(alloc, &mut members, "month", month)?;
    put_whole(alloc, &mut members, "nights", sums.nights)?;
    put_text(alloc, &mut members, "product", cell.product.as_str())?;
    put_text(alloc, &mut members, "supplier", cell.supplier.as_str())?;
    Ok(Value::Object(members))
}

/// The same line as a record.
fn summary_record(alloc: Global, cell: &Cell, sums: &Sums) -> Result<Vec<u8>, AllocError>
    ensures fields { IfOk result
        (λ bytes. bytes.items ≡ csv_line (summary_fields cell.now sums.now)) }
{
    let month = month_text(alloc, cell.night)?;
    let fields = put_month(Fields::new(alloc), cell, month.as_str())?;
    put_sums(alloc, fields, sums)?.line(alloc)
}

/// Adds the fields of a month with this text, of which a cell is this one: kind, supplier, product and month.
#[tactic(auto, using(std::proofs::Common::append_assoc))]
fn put_month(fields: Fields, cell: &Cell, month: &str) -> Result<Fields, AllocError>
    ensures adds { IfOk result (λ all. all ≡ fields
        ++ (kind_word cell.now.kind ∷ cell.now.supplier ∷ cell.now.product ∷ month.now ∷ [])) }
{
    let fields = fields.with(cell.kind.word())?;
    let fields = fields.with(cell.supplier.as_str())?;
    let fields = fields.with(cell.product.as_str())?;
    fields.with(month)
}

/// Adds the fields of sums: nights, and allotted, held and free places.
fn put_sums(alloc: Global, fields: Fields, sums: &Sums) -> Result<Fields, AllocError>
    ensures adds { IfOk result (λ all. all ≡ fields
        ++ (decimal sums.now.nights ∷ decimal sums.now.allot ∷ decimal sums.now.held
        ∷ decimal sums.now.free ∷ [])) }
{
    let fields = fields.with_number(alloc, sums.nights)?;
    let fields = fields.with_number(alloc, sums.allot)?;
    let fields = fields.with_number(alloc, sums.held)?;
    fields.with_number(alloc, sums.free)
}
