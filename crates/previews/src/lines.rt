//! The lines of a preview as a text.
ghost use Rattle.std.specs.Prelude.{◌≡◌, IfOk, Some, string_bytes};
ghost use Rattle.previews.specs.Layouts.{brief_lines, night_line, next_line, step_line, step_word};

use crate::nights::FreeNight;
use crate::steps::NextStep;
use commands::Item;
use saga_core::Brief;
use std::alloc::{AllocError, Global};

/// The lines of a journey with its agent, and of where it is.
#[tactic(auto, using(std::proofs::Common::string_bytes, std::proofs::Common::decimal, crate::proofs::FloatLemmas::brief_parts))]
pub(crate) fn brief_lines(alloc: Global, brief: &Brief) -> Result<String, AllocError>
    ensures lines { IfOk result (λ text. string_bytes text ≡ brief_lines brief.now) }
{
    let id = brief.id;
    let agent = brief.agent.as_str();
    let state = brief.cursor.state(alloc)?;
    format!(in alloc; "journey {id} agent {agent}\nstate {state}\n")
}

/// The line of the next step and its want; nothing if there is none.
pub(crate) fn next_line(alloc: Global, next: &Option<NextStep>) -> Result<String, AllocError>
    ensures line { IfOk result (λ text. string_bytes text ≡ next_line next.now) }
{
    match next {
        Some(next) => line_of(alloc, next),
        None => Ok(String::new(alloc)),
    }
}

/// The line of a next step and its want.
#[tactic(auto, using(std::proofs::Common::string_bytes, crate::proofs::FloatLemmas::next_parts))]
fn line_of(alloc: Global, next: &NextStep) -> Result<String, AllocError>
    ensures line { IfOk result (λ text. string_bytes text ≡ next_line (Some next.now)) }
{
    let item = next.item.text(alloc)?;
    let want = next.want.text(alloc)?;
    format!(in alloc; "next {item} {want}\n")
}

/// The line of a night and what is free of it.
pub(crate) fn night_line(alloc: Global, row: &FreeNight) -> Result<String, AllocError>
    ensures line { IfOk result (λ text. string_bytes text ≡ night_line row.now) }
{
    let night = row.night;
    match row.free {
        Some(free) => format!(in alloc; "night {night} free {free}\n"),
        None => format!(in alloc; "night {night} unallotted\n"),
    }
}

/// The item that a step makes, as a word: `none` if no step is left.
pub(crate) fn step_word(alloc: Global, step: &Option<Item>) -> Result<String, AllocError>
    ensures word { IfOk result (λ text. string_bytes text ≡ step_word step.now) }
{
    match step {
        Some(item) => item.text(alloc),
        None => String::from_str(alloc, "none"),
    }
}

/// The line of what a step makes.
pub(crate) fn step_line(alloc: Global, step: &Option<Item>) -> Result<String, AllocError>
    ensures line { IfOk result (λ text. string_bytes text ≡ step_line step.now) }
{
    let word = step_word(alloc, step)?;
    format!(in alloc; "step {word}\n")
}
