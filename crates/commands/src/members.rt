//! The members of JSON objects, inserted one after another: texts, whole numbers, and where a journey is.
ghost use Rattle.std.specs.Prelude.{◌≡◌, OnOk};
ghost use Rattle.serde_json.specs.Data.{put, string};
ghost use Rattle.serde_json.specs.View.{members_view};
ghost use Rattle.commands.specs.Members.{with_standing};
ghost use Rattle.commands.specs.Objects.{whole};

use crate::items::Phase;
use serde_json::{Map, Value, put};
use std::alloc::{AllocError, Global};

/// Inserts a member that is a text. The only fault is out of memory, as in each call here.
pub fn put_text(
    alloc: Global,
    members: &mut Map<String, Value>,
    name: &str,
    text: &str,
) -> Result<(), AllocError>
    ensures text { OnOk result (members_view members.new.entries
        ≡ put name.now (string text.now) (members_view members.old.entries)) }
{
    put(members, alloc, name, Value::try_from_str(alloc, text)?)
}

/// Inserts a member that is a whole number.
pub fn put_whole(
    alloc: Global,
    members: &mut Map<String, Value>,
    name: &str,
    number: u64,
) -> Result<(), AllocError>
    ensures whole { OnOk result (members_view members.new.entries
        ≡ put name.now (whole number) (members_view members.old.entries)) }
{
    put(members, alloc, name, Value::from(number))
}

/// Inserts where a journey is: its number, its position, what it is doing, and its target if it goes back.
pub fn put_standing(
    alloc: Global,
    members: &mut Map<String, Value>,
    id: u64,
    pos: usize,
    phase: Phase,
) -> Result<(), AllocError>
    ensures standing { OnOk result (members_view members.new.entries
        ≡ with_standing id pos phase (members_view members.old.entries)) }
{
    put_whole(alloc, members, "journey", id)?;
    put_whole(alloc, members, "pos", pos as u64)?;
    put_text(alloc, members, "state", phase.word())?;
    match phase {
        Phase::Back(target) => put_whole(alloc, members, "target", target as u64),
        _ => Ok(()),
    }
}
