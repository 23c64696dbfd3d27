//! The line of a holder, in each format.
ghost use Rattle.std.specs.Prelude.{◌≡◌, IfOk, string_bytes};
ghost use Rattle.reports.specs.HolderLayouts.{holder_data, holder_fields, holder_line, holder_row, holders_head};
ghost use Rattle.reports.specs.Objects.{json_line};
ghost use Rattle.reports.specs.Records.{csv_line};
ghost use Rattle.serde_json.specs.View.{view};

use crate::faults::ReportFault;
use crate::fields::Fields;
use crate::holders::Holder;
use crate::objects::json_line;
use crate::outputs::send;
use crate::rows::Layout;
use saga_core::Format;
use serde_json::{Value, json};
use std::alloc::{AllocError, Global};
use std::io::Write;

impl Layout<Holder> for Format {
    ghost shown = { λ format holder. holder_row format holder };

    fn send_row<W: Write>(
        &self,
        alloc: Global,
        row: &Holder,
        out: &mut W,
    ) -> Result<(), ReportFault> {
        match self {
            Format::Text => send(out, holder_line(alloc, row)?.as_bytes()),
            Format::Json => send(out, holder_object(alloc, row)?.as_bytes()),
            Format::Csv => send(out, &holder_record(alloc, row)?),
        }
    }
}

/// The heading of the report in this format.
#[tactic(auto, unfolding(csv::specs::Writing::escaped, csv::specs::Writing::fields_text, csv::specs::Writing::is_blank))]
pub(crate) fn holders_head(format: Format) -> &'static str
    ensures head { result.now ≡ holders_head format }
{
    match format {
        Format::Text => "     journey   step option places\n",
        Format::Json => "",
        Format::Csv => "journey,step,option,places\r\n",
    }
}

/// The line of a holder.
fn holder_line(alloc: Global, holder: &Holder) -> Result<String, AllocError>
    ensures line { IfOk result (λ text. string_bytes text ≡ holder_line holder.now) }
{
    let Holder {
        journey,
        step,
        option,
        places,
    } = *holder;
    format!(in alloc; "{journey:>12} {step:>6} {option:>6} {places:>6}\n")
}

/// The same line as an object.
fn holder_object(alloc: Global, holder: &Holder) -> Result<String, AllocError>
    ensures line { IfOk result (λ text. string_bytes text ≡ json_line (holder_data holder.now)) }
{
    let value = holder_value(alloc, holder)?;
    json_line(alloc, &value)
}

/// The value of a holder.
fn holder_value(alloc: Global, holder: &Holder) -> Result<Value, AllocError>
    ensures value { IfOk result (λ value. view value ≡ holder_data holder.now) }
{
    let Holder {
        journey,
        step,
        option,
        places,
    } = *holder;
    json!(in alloc; {"journey": journey, "option": option, "places": places, "step": step})
}

/// The same line as a record.
fn holder_record(alloc: Global, holder: &Holder) -> Result<Vec<u8>, AllocError>
    ensures fields { IfOk result (λ bytes. bytes.items ≡ csv_line (holder_fields holder.now)) }
{
    let fields = Fields::new(alloc).with_number(alloc, holder.journey)?;
    let fields = fields.with_number(alloc, holder.step)?;
    let fields = fields.with_number(alloc, holder.option)?;
    fields.with_number(alloc, holder.places)?.line(alloc)
}
