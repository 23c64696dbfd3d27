//! Readers of reply lines.
//!
//! Each reader returns the one value that has this text, within its limits, or `None`. Numbers have no sign and no
//! leading zeros.
ghost use Rattle.std.specs.Prelude.{◌≡◌, ◌≤◌, decimal, length, IfOk, IfSome};
ghost use Rattle.allotment.specs.Limits.{is_between};
ghost use Rattle.allotment.specs.Texts.{number_from};
ghost use Rattle.commands.specs.Texts.{is_item, item_text, is_journey, is_accepted};
ghost use Rattle.commands.specs.Texts.{FindsReply, ReadsReply};
ghost use Rattle.commands.specs.Readings.{Finds, FindsCause, is_plain_start, texts_of};
ghost use Rattle.commands.specs.Readings.{is_step_pair, step_pair_text, is_turn_pair};
ghost use Rattle.commands.specs.Readings.{turn_pair_text, is_state_pair, state_pair_words};
ghost use Rattle.commands.specs.Readings.{standing_words, loaded_words, begun_words};
ghost use Rattle.commands.specs.Readings.{stood_words, turned_words, reply_words};

use crate::items::{Cause, Item, Phase};
use crate::limits::{MOST_EVENTS, MOST_ROWS};
use crate::names::Name;
use crate::replies::Reply;
use plan::{MOST_OPTIONS, MOST_STEPS};
use std::alloc::{AllocError, Global};

/// Whether the text begins as a number does: with a digit from 1 on, or as `0` alone.
fn begins_plain(text: &str) -> bool
    ensures first { result ≡ is_plain_start text.now }
{
    matches!(text.as_bytes(), [b'0'] | [b'1'..=b'9', ..])
}

/// The number from `low` to `high` that the text spells, without sign and without leading zeros. Returns `None` if it
/// spells none of them.
pub fn number_in(text: &str, low: usize, high: usize) -> Option<usize>
    ensures found { Finds (is_between low high) decimal text.now result }
{
    if !begins_plain(text) {
        return None;
    }
    let Ok(number) = text.parse() else {
        return None;
    };
    if number < low || high < number {
        return None;
    }
    Some(number)
}

/// The number from `low` to `high` that a word spells, without sign and without leading zeros. Returns `None` if it
/// spells none of them.
pub fn number_between(word: &str, low: usize, high: usize) -> Option<usize>
    ensures number { result ≡ number_from low high word.now }
    ensures high { IfSome result (λ number. number ≤ high) }
{
    number_in(word, low, high)
}

/// The step and the option that the text spells: `1.2`.
fn step_in(text: &str) -> Option<(usize, usize)>
    ensures found { Finds is_step_pair step_pair_text text.now result }
{
    let (step, option) = text.split_once('.')?;
    let step = number_in(step, 1, MOST_STEPS)?;
    let option = number_in(option, 1, MOST_OPTIONS)?;
    Some((step, option))
}

/// What stands before the letter of a cause at the end of the text, and the cause.
fn cause_in(text: &str) -> Option<(&str, Cause)>
    ensures found { FindsCause text.now result }
{
    if let Some(front) = text.strip_suffix('s') {
        return Some((front, Cause::Stop));
    }
    if let Some(front) = text.strip_suffix('r') {
        return Some((front, Cause::Refused));
    }
    let front = text.strip_suffix('a')?;
    Some((front, Cause::Asked))
}

/// The target and the cause of a turn that the text spells: `0s`.
fn turn_in(text: &str) -> Option<(usize, Cause)>
    ensures found { Finds is_turn_pair turn_pair_text text.now result }
{
    let (front, cause) = cause_in(text)?;
    let target = number_in(front, 0, MOST_STEPS)?;
    Some((target, cause))
}

/// The item that the text spells: `T1.2`, `C1.2`, `B0s` or `S3`.
fn item_in(text: &str) -> Option<Item>
    ensures found { Finds is_item item_text text.now result }
{
    if let Some(rest) = text.strip_prefix('T') {
        let (step, option) = step_in(rest)?;
        return Some(Item::Transaction { step, option });
    }
    if let Some(rest) = text.strip_prefix('C') {
        let (step, option) = step_in(rest)?;
        return Some(Item::Compensation { step, option });
    }
    if let Some(rest) = text.strip_prefix('B') {
        let (target, cause) = turn_in(rest)?;
        return Some(Item::Turn { target, cause });
    }
    let rest = text.strip_prefix('S')?;
    let position = number_in(rest, 0, MOST_STEPS)?;
    Some(Item::Save { position })
}

/// The number of a journey that the text spells.
fn journey_in(text: &str) -> Option<u64>
    ensures found { Finds is_journey decimal text.now result }
{
    let id = number_in(text, 1, MOST_EVENTS as usize)?;
    Some(id as u64)
}

/// The position and the phase that two words spell: `run 2`, `ended 6` or `undone 0`.
fn state_in(phase: &str, position: &str) -> Option<(usize, Phase)>
    ensures found { let words = standing_words phase.now position.now in
        Finds is_state_pair state_pair_words words result }
{
    match phase {
        "run" => Some((number_in(position, 0, MOST_STEPS)?, Phase::Run)),
        "ended" => Some((number_in(position, 0, MOST_STEPS)?, Phase::Ended)),
        "undone" if position == "0" => Some((0, Phase::Undone)),
        _ => None,
    }
}

/// The reply to a batch, by the words for its name and rows.
fn loaded_in(name: &str, rows: &str) -> Option<Reply>
    ensures found { Finds is_accepted reply_words (loaded_words name.now rows.now) result }
{
    let name = Name::parse(name)?;
    let rows = number_in(rows, 1, MOST_ROWS)?;
    Some(Reply::Loaded { name, rows })
}

/// The reply to a journey which begins, by the word for its number.
fn begun_in(id: &str) -> Option<Reply>
    ensures found { Finds is_accepted reply_words (begun_words id.now) result }
{
    let id = journey_in(id)?;
    Some(Reply::Begun { id })
}

/// The reply for a journey which moved and goes forward or is at its end, by these words.
fn stood_in(id: &str, item: &str, phase: &str, position: &str) -> Option<Reply>
    ensures found { let words = stood_words id.now item.now phase.now position.now in
        Finds is_accepted reply_words words result }
{
    let id = journey_in(id)?;
    let item = item_in(item)?;
    let (pos, phase) = state_in(phase, position)?;
    Some(Reply::Moved {
        id,
        item,
        pos,
        phase,
    })
}

/// The reply for a journey which moved and goes back, by these words.
fn turned_in(id: &str, item: &str, position: &str, target: &str) -> Option<Reply>
    ensures found { let words = turned_words id.now item.now position.now target.now in
        Finds is_accepted reply_words words result }
{
    let id = journey_in(id)?;
    let item = item_in(item)?;
    let pos = number_in(position, 0, MOST_STEPS)?;
    let target = number_in(target, 0, MOST_STEPS)?;
    let phase = Phase::Back(target);
    Some(Reply::Moved {
        id,
        item,
        pos,
        phase,
    })
}

/// The reply of three words: to a batch, or to a journey which begins.
fn three_in(words: &[&str]) -> Option<Reply>
    requires three { length words.now ≡ 3 }

    ensures found { Finds is_accepted reply_words (texts_of words.now) result }
{
    if words[0] == "loaded" {
        return loaded_in(words[1], words[2]);
    }
    if words[0] == "journey" && words[2] == "begun" {
        return begun_in(words[1]);
    }
    None
}

/// The reply of five words: for a journey which moved, and goes forward or is at its end.
fn five_in(words: &[&str]) -> Option<Reply>
    requires five { length words.now ≡ 5 }

    ensures found { Finds is_accepted reply_words (texts_of words.now) result }
{
    if words[0] != "journey" {
        return None;
    }
    stood_in(words[1], words[2], words[3], words[4])
}

/// The reply of seven words: for a journey which moved, and goes back.
fn seven_in(words: &[&str]) -> Option<Reply>
    requires seven { length words.now ≡ 7 }

    ensures found { Finds is_accepted reply_words (texts_of words.now) result }
{
    if words[0] != "journey" || words[3] != "back" || words[5] != "to" {
        return None;
    }
    turned_in(words[1], words[2], words[4], words[6])
}

/// The reply whose line has these words.
fn reply_in(words: &[&str]) -> Option<Reply>
    ensures found { Finds is_accepted reply_words (texts_of words.now) result }
{
    match words.len() {
        3 => three_in(words),
        5 => five_in(words),
        7 => seven_in(words),
        _ => None,
    }
}

impl Reply {
    /// Reads an accepted reply from its line. Returns `None` for any other line, and for the line of a refusal. The
    /// only fault is out of memory.
    pub fn from_line(alloc: Global, text: &str) -> Result<Option<Reply>, AllocError>
        ensures found { IfOk result (FindsReply text.now) }
        ensures reads { IfOk result (ReadsReply text.now) }
    {
        let words: Vec<&str> = text.split(' ').collect(alloc)?;
        Ok(reply_in(&words))
    }
}
