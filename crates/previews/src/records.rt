//! The lines of a preview as CSV records (RFC 4180).
ghost use Rattle.std.specs.Prelude.{◌≡◌, [], ◌∷◌, ◌++◌, IfOk, string_bytes};
ghost use Rattle.reports.specs.Records.{csv_line};
ghost use Rattle.previews.specs.Layouts.{free_field, next_fields, night_fields, why_fields, why_names};

use crate::lines::step_word;
use crate::nights::FreeNight;
use crate::steps::{NextStep, Preview};
use reports::{Fields, night_text, put_journey};
use std::alloc::{AllocError, Global};

/// The heading.
#[tactic(auto, unfolding(csv::specs::Writing::escaped, csv::specs::Writing::fields_text, csv::specs::Writing::is_blank))]
pub(crate) fn why_heading() -> &'static str
    ensures heading { result.now ≡ csv_line why_names }
{
    "journey,agent,state,pos,target,next,want,night,free,step\r\n"
}

/// The record of a preview and a night, or of one without a night.
pub(crate) fn why_record(
    alloc: Global,
    preview: &Preview,
    night: &Option<FreeNight>,
) -> Result<Vec<u8>, AllocError>
    ensures fields { IfOk result
        (λ text. text.items ≡ csv_line (why_fields preview.now night.now)) }
{
    let step = step_word(alloc, &preview.step)?;
    let fields = put_journey(alloc, Fields::new(alloc), &preview.brief)?;
    let fields = put_next(alloc, fields, &preview.next)?;
    let fields = put_night(alloc, fields, night)?;
    fields.with(step.as_str())?.line(alloc)
}

/// Adds the next step and its want; empty fields if there is none.
fn put_next(alloc: Global, fields: Fields, next: &Option<NextStep>) -> Result<Fields, AllocError>
    ensures adds { IfOk result (λ all. all ≡ fields ++ next_fields next.now) }
{
    match next {
        Some(next) => {
            let item = next.item.text(alloc)?;
            let want = next.want.text(alloc)?;
            put_two(fields, item.as_str(), want.as_str())
        }
        None => put_two(fields, "", ""),
    }
}

/// Adds a night and what is free of it; empty fields if there is no night, and one if the night is not allotted.
fn put_night(alloc: Global, fields: Fields, night: &Option<FreeNight>) -> Result<Fields, AllocError>
    ensures adds { IfOk result (λ all. all ≡ fields ++ night_fields night.now) }
{
    match night {
        Some(night) => {
            let text = night_text(alloc, night.night)?;
            let free = free_text(alloc, night.free)?;
            put_two(fields, text.as_str(), free.as_str())
        }
        None => put_two(fields, "", ""),
    }
}

/// The field of what is free of a night.
fn free_text(alloc: Global, free: Option<u32>) -> Result<String, AllocError>
    ensures field { IfOk result (λ text. string_bytes text ≡ free_field free) }
{
    match free {
        Some(free) => format!(in alloc; "{free}"),
        None => Ok(String::new(alloc)),
    }
}

/// Adds two fields.
fn put_two(fields: Fields, first: &str, second: &str) -> Result<Fields, AllocError>
    ensures adds { IfOk result (λ all. all ≡ fields ++ (first.now ∷ second.now ∷ [])) }
{
    fields.with(first)?.with(second)
}
