//! The line of a holder with its cell and journey, in each format.
ghost use Rattle.std.specs.Prelude.{◌≡◌, [], ◌∷◌, ◌++◌, codes, decimal, IfOk, string_bytes};
ghost use Rattle.allotment.specs.Nights.{night_text};
ghost use Rattle.allotment.specs.Texts.{kind_word};
ghost use Rattle.saga_core.specs.JourneyFilters.{state_word};
ghost use Rattle.reports.specs.HoldingLayouts.{cell_columns, holding_data, holding_fields, holding_line, holding_row, holdings_head};
ghost use Rattle.reports.specs.Columns.{left};
ghost use Rattle.reports.specs.Objects.{json_line};
ghost use Rattle.reports.specs.Records.{csv_line};
ghost use Rattle.serde_json.specs.View.{view};

use crate::faults::ReportFault;
use crate::fields::Fields;
use crate::holdings::Holding;
use crate::lines::night_text;
use crate::objects::json_line;
use crate::outputs::send;
use crate::rows::Layout;
use allotment::Cell;
use commands::{put_text, put_whole};
use saga_core::{Format, JourneyState};
use serde_json::{Map, Value};
use std::alloc::{AllocError, Global};
use std::io::Write;

impl Layout<Holding> for Format {
    ghost shown = { λ format holding. holding_row format holding };

    fn send_row<W: Write>(
        &self,
        alloc: Global,
        row: &Holding,
        out: &mut W,
    ) -> Result<(), ReportFault> {
        match self {
            Format::Text => send(out, holding_line(alloc, row)?.as_bytes()),
            Format::Json => send(out, holding_object(alloc, row)?.as_bytes()),
            Format::Csv => send(out, &holding_record(alloc, row)?),
        }
    }
}

/// The heading of the report in this format.
#[tactic(auto, unfolding(csv::specs::Writing::escaped, csv::specs::Writing::fields_text, csv::specs::Writing::is_blank))]
pub(crate) fn holdings_head(format: Format) -> &'static str
    ensures head { result.now ≡ holdings_head format }
{
    match format {
        Format::Text => {
            "night      kind     supplier product       journey agent            state  places\n"
        }
        Format::Json => "",
        Format::Csv => "night,kind,supplier,product,journey,agent,state,places\r\n",
    }
}

/// The word of a state in a column of six bytes.
fn state_column(state: JourneyState) -> &'static str
    ensures column { result.now ≡ left 6 (state_word state) }
{
    match state {
        JourneyState::Run => "run   ",
        JourneyState::Back => "back  ",
        JourneyState::Ended => "ended ",
        JourneyState::Undone => "undone",
    }
}

/// The line of a holder.
fn holding_line(alloc: Global, holding: &Holding) -> Result<String, AllocError>
    ensures line { IfOk result (λ text. string_bytes text ≡ holding_line holding.now) }
{
    let cell = cell_columns(alloc, &holding.cell)?;
    let journey = holding.journey;
    let agent = holding.agent.as_str();
    let state = state_column(holding.state);
    let places = holding.places;
    format!(in alloc; "{cell} {journey:>12} {agent:<16} {state} {places:>6}\n")
}

/// The columns of a cell: its night, kind, supplier and product.
fn cell_columns(alloc: Global, cell: &Cell) -> Result<String, AllocError>
    ensures columns { IfOk result (λ text. string_bytes text ≡ cell_columns cell.now) }
{
    let night = night_text(alloc, cell.night)?;
    let kind = cell.kind.word();
    let supplier = cell.supplier.as_str();
    let product = cell.product.as_str();
    format!(in alloc; "{night} {kind:<8} {supplier:<8} {product:<8}")
}

/// The same line as an object.
fn holding_object(alloc: Global, holding: &Holding) -> Result<String, AllocError>
    ensures line { IfOk result (λ text. string_bytes text ≡ json_line (holding_data holding.now)) }
{
    let night = night_text(alloc, holding.cell.night)?;
    let value = holding_value(alloc, holding, night.as_str())?;
    json_line(alloc, &value)
}

/// The value of a holder of a cell whose night has this text.
fn holding_value(alloc: Global, holding: &Holding, night: &str) -> Result<Value, AllocError>
    ensures value { night.now ≡ night_text holding.now.cell.night →
        IfOk result (λ value. view value ≡ holding_data holding.now) }
{
    let mut members = Map::new(alloc);
    put_text(alloc, &mut members, "agent", holding.agent.as_str())?;
    put_whole(alloc, &mut members, "journey", holding.journey)?;
    put_text(alloc, &mut members, "kind", holding.cell.kind.word())?;
    put_text(alloc, &mut members, "night", night)?;
    put_whole(alloc, &mut members, "places", holding.places)?;
    put_text(
        alloc,
        &mut members,
        "product",
        holding.cell.product.as_str(),
    )?;
    put_text(alloc, &mut members, "state", holding.state.word())?;
    put_text(
        alloc,
        &mut members,
        "supplier",
        holding.cell.supplier.as_str(),
    )?;
    Ok(Value::Object(members))
}

/// The same line as a record.
fn holding_record(alloc: Global, holding: &Holding) -> Result<Vec<u8>, AllocError>
    ensures fields { IfOk result (λ bytes. bytes.items ≡ csv_line (holding_fields holding.now)) }
{
    let night = night_text(alloc, holding.cell.night)?;
    let fields = put_cell(Fields::new(alloc), &holding.cell, night.as_str())?;
    put_holder(alloc, fields, holding)?.line(alloc)
}

/// Adds the fields of a holder: journey, agent, state and places.
fn put_holder(alloc: Global, fields: Fields, holding: &Holding) -> Result<Fields, AllocError>
    ensures adds { IfOk result (λ all. all ≡ fields
        ++ (decimal holding.now.journey ∷ holding.now.agent ∷ state_word holding.now.state
        ∷ decimal holding.now.places ∷ [])) }
{
    let fields = fields.with_number(alloc, holding.journey)?;
    let fields = fields.with(holding.agent.as_str())?;
    let fields = fields.with(holding.state.word())?;
    fields.with_number(alloc, holding.places)
}

/// Adds the fields of a cell, whose night has this text: night, kind, supplier and product.
#[tactic(auto, using(std::proofs::Common::append_assoc))]
fn put_cell(fields: Fields, cell: &Cell, night: &str) -> Result<Fields, AllocError>
    ensures adds { IfOk result (λ all. all ≡ fields
        ++ (night.now ∷ kind_word cell.now.kind ∷ cell.now.supplier ∷ cell.now.product ∷ [])) }
{
    let fields = fields.with(night)?;
    let fields = fields.with(cell.kind.word())?;
    let fields = fields.with(cell.supplier.as_str())?;
    fields.with(cell.product.as_str())
}
