//! The texts of items, of where a journey is, of refusals and of replies, and their words.
//!
//! A text has one spelling; the definitions in `specs/Texts.antt` are the printers.
ghost use Rattle.commands.specs.Texts.{item_text, state_text, cursor_text, turn_letter, refusal_line, reply_line, told, phase_word, csv_word};
ghost use Rattle.std.specs.Prelude.{◌≡◌, IfOk};
ghost use Rattle.std.specs.String.{string_bytes};

use crate::items::{Cause, Cursor, Item, Phase};
use crate::replies::{CsvCause, Refusal, Reply};
use plan::BadPlan;
use std::alloc::{AllocError, Global};

impl Cause {
    /// The letter that ends the text of a turn: `s`, `r` or `a` for a stop, a refusal or a request.
    fn letter(&self) -> &'static str
        ensures letter { result.now ≡ turn_letter self.now }
    {
        match self {
            Cause::Stop => "s",
            Cause::Refused => "r",
            Cause::Asked => "a",
        }
    }
}

impl Item {
    /// The text of the item, as `T1.2`, `C1.2`, `B0s` or `S3`. The only fault is out of memory.
    pub fn text(&self, alloc: Global) -> Result<String, AllocError>
        ensures text { IfOk result (λ text. string_bytes text ≡ item_text self.now) }
    {
        match self {
            Item::Transaction { step, option } => format!(in alloc; "T{step}.{option}"),
            Item::Compensation { step, option } => format!(in alloc; "C{step}.{option}"),
            Item::Turn { target, cause } => {
                let letter = cause.letter();
                format!(in alloc; "B{target}{letter}")
            }
            Item::Save { position } => format!(in alloc; "S{position}"),
        }
    }
}

/// Where a journey is, at this position and in this phase.
fn state(alloc: Global, position: usize, phase: Phase) -> Result<String, AllocError>
    ensures text { IfOk result (λ text. string_bytes text ≡ state_text position phase) }
{
    match phase {
        Phase::Run => format!(in alloc; "run {position}"),
        Phase::Back(target) => format!(in alloc; "back {position} to {target}"),
        Phase::Ended => format!(in alloc; "ended {position}"),
        Phase::Undone => format!(in alloc; "undone 0"),
    }
}

impl Cursor {
    /// Where the journey is: `run 2`, `back 5 to 2`, `ended 6` or `undone 0`. The only fault is out of memory.
    pub fn state(&self, alloc: Global) -> Result<String, AllocError>
        ensures text { IfOk result (λ text. string_bytes text ≡ cursor_text self.now) }
    {
        state(alloc, self.pos, self.phase)
    }
}

impl Refusal {
    /// The line of the refusal: `refused`, its number, its name, and its step, row, cause or version if it has them,
    /// with a blank between each two. The only fault is out of memory.
    pub fn line(&self, alloc: Global) -> Result<String, AllocError>
        ensures line { IfOk result (λ text. string_bytes text ≡ refusal_line self.now) }
    {
        let number = self.number();
        let name = self.name();
        match self {
            Refusal::BadPlan(BadPlan { step, cause }) => {
                let word = cause.word();
                format!(in alloc; "refused {number} {name} {step} {word}")
            }
            Refusal::BadCsv { row, cause } => {
                let word = cause.word();
                format!(in alloc; "refused {number} {name} {row} {word}")
            }
            Refusal::BelowHeld { row } => format!(in alloc; "refused {number} {name} {row}"),
            Refusal::UnknownSchema { version } => format!(in alloc;
                "refused {number} {name} {version}"
            ),
            _ => format!(in alloc; "refused {number} {name}"),
        }
    }
}

impl Reply {
    /// The line of the reply: `loaded b1 2`, `journey 1 begun`, `journey 1 T1.1 run 1`, or the line of the refusal. The
    /// only fault is out of memory.
    pub fn line(&self, alloc: Global) -> Result<String, AllocError>
        ensures line { IfOk result (λ text. string_bytes text ≡ reply_line self.now) }
    {
        match self {
            Reply::Loaded { name, rows } => {
                let name = name.as_str();
                format!(in alloc; "loaded {name} {rows}")
            }
            Reply::Begun { id } => format!(in alloc; "journey {id} begun"),
            Reply::Moved {
                id,
                item,
                pos,
                phase,
            } => {
                let item = item.text(alloc)?;
                let state = state(alloc, *pos, *phase)?;
                format!(in alloc; "journey {id} {item} {state}")
            }
            Reply::Refused(refusal) => refusal.line(alloc),
        }
    }
}

impl Phase {
    /// The first word of where a journey is: `run`, `back`, `ended` or `undone`.
    pub fn word(&self) -> &'static str
        ensures word { result.now ≡ phase_word self.now }
    {
        match self {
            Phase::Run => "run",
            Phase::Back(_) => "back",
            Phase::Ended => "ended",
            Phase::Undone => "undone",
        }
    }
}

impl CsvCause {
    /// The cause in one word, as `header`.
    pub fn word(&self) -> &'static str
        ensures word { result.now ≡ csv_word self.now }
    {
        match self {
            CsvCause::Size => "size",
            CsvCause::Header => "header",
            CsvCause::Many => "many",
            CsvCause::Shape => "shape",
            CsvCause::Kind => "kind",
            CsvCause::Code => "code",
            CsvCause::Night => "night",
            CsvCause::Places => "places",
            CsvCause::Twice => "twice",
            CsvCause::Empty => "empty",
        }
    }
}

impl Refusal {
    /// The number of the refusal, 1 to 28.
    pub fn number(&self) -> u8
        ensures number { result ≡ (told self.now).number }
    {
        match self {
            Refusal::BadHead => 1,
            Refusal::NoAgent => 2,
            Refusal::NoKey => 3,
            Refusal::BadBody => 4,
            Refusal::BadPlan(_) => 5,
            Refusal::BadCsv { .. } => 6,
            Refusal::UnknownPath => 7,
            Refusal::WrongMethod => 8,
            Refusal::NoJourney => 9,
            Refusal::Finished => 10,
            Refusal::NoSavePoint => 11,
            Refusal::BelowHeld { .. } => 12,
            Refusal::BatchDiffers => 13,
            Refusal::KeyReused => 14,
            Refusal::TooLarge => 15,
            Refusal::Limit => 16,
            Refusal::NoLength => 19,
            Refusal::UnknownSchema { .. } => 20,
            Refusal::AlreadyNew => 23,
            Refusal::NoSave => 28,
        }
    }

    /// The name of the refusal, as `NoJourney`.
    pub fn name(&self) -> &'static str
        ensures name { result.now ≡ (told self.now).name }
    {
        match self {
            Refusal::BadHead => "BadHead",
            Refusal::NoAgent => "NoAgent",
            Refusal::NoKey => "NoKey",
            Refusal::BadBody => "BadBody",
            Refusal::BadPlan(_) => "BadPlan",
            Refusal::BadCsv { .. } => "BadCsv",
            Refusal::UnknownPath => "UnknownPath",
            Refusal::WrongMethod => "WrongMethod",
            Refusal::NoJourney => "NoJourney",
            Refusal::Finished => "Finished",
            Refusal::NoSavePoint => "NoSavePoint",
            Refusal::BelowHeld { .. } => "BelowHeld",
            Refusal::BatchDiffers => "BatchDiffers",
            Refusal::KeyReused => "KeyReused",
            Refusal::TooLarge => "TooLarge",
            Refusal::Limit => "Limit",
            Refusal::NoLength => "NoLength",
            Refusal::UnknownSchema { .. } => "UnknownSchema",
            Refusal::AlreadyNew => "AlreadyNew",
            Refusal::NoSave => "NoSave",
        }
    }
}
