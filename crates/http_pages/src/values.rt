//! Replies, refusals and journeys as JSON values.
ghost use Rattle.std.specs.Prelude.{◌≡◌, IfOk, OnOk, map};
ghost use Rattle.serde_json.specs.Data.{object, no_members};
ghost use Rattle.serde_json.specs.View.{view, members_view};
ghost use Rattle.http_pages.specs.Bodies.{item_data, moved_data, refusal_data, reply_data, list};
ghost use Rattle.http_pages.specs.Bodies.{journey_data, brief_data, listed_data};
ghost use Rattle.http_pages.specs.Bodies.{agent_data, begun_data, health_data, loaded_data, stopping_data};

use crate::bodies::Owners;
use commands::{Agent, Cursor, Item, Phase, Refusal, Reply, put_standing, put_text, put_whole};
use plan::BadPlan;
use saga_core::{Brief, Counts};
use serde_json::{Map, Value, json, put};
use std::alloc::{AllocError, Global};

/// The value of a reply. The only fault is out of memory, as in each call here.
pub fn reply_value(alloc: Global, reply: &Reply) -> Result<Value, AllocError>
    ensures value { IfOk result (λ value. view value ≡ reply_data reply.now) }
{
    match reply {
        Reply::Loaded { name, rows } => loaded_value(alloc, name.as_str(), *rows),
        Reply::Begun { id } => begun_value(alloc, *id),
        Reply::Moved {
            id,
            item,
            pos,
            phase,
        } => moved_value(alloc, *id, item, *pos, *phase),
        Reply::Refused(refusal) => refusal_value(alloc, refusal),
    }
}

/// The value of a batch that was loaded.
fn loaded_value(alloc: Global, name: &str, rows: usize) -> Result<Value, AllocError>
    ensures value { IfOk result (λ value. view value ≡ loaded_data name.now rows) }
{
    let mut members = Map::new(alloc);
    put_text(alloc, &mut members, "batch", name)?;
    put_whole(alloc, &mut members, "rows", rows as u64)?;
    Ok(Value::Object(members))
}

/// The value of a journey that is begun.
fn begun_value(alloc: Global, id: u64) -> Result<Value, AllocError>
    ensures value { IfOk result (λ value. view value ≡ begun_data id) }
{
    let mut members = Map::new(alloc);
    put_whole(alloc, &mut members, "journey", id)?;
    Ok(Value::Object(members))
}

/// The value of a refusal: its name and number, and its cause, row and step if it has them.
pub fn refusal_value(alloc: Global, refusal: &Refusal) -> Result<Value, AllocError>
    ensures value { IfOk result (λ value. view value ≡ refusal_data refusal.now) }
{
    let mut members = Map::new(alloc);
    put_refusal(alloc, &mut members, refusal)?;
    Ok(Value::Object(members))
}

/// Inserts the members of a refusal, where there are none yet.
fn put_refusal(
    alloc: Global,
    members: &mut Map<String, Value>,
    refusal: &Refusal,
) -> Result<(), AllocError>
    ensures refusal { members_view members.old.entries ≡ no_members →
        OnOk result (object (members_view members.new.entries) ≡ refusal_data refusal.now) }
{
    put_text(alloc, members, "name", refusal.name())?;
    put_whole(alloc, members, "refused", u64::from(refusal.number()))?;
    match refusal {
        Refusal::BadPlan(BadPlan { step, cause }) => {
            put_text(alloc, members, "cause", cause.word())?;
            put_whole(alloc, members, "step", *step as u64)
        }
        Refusal::BadCsv { row, cause } => {
            put_text(alloc, members, "cause", cause.word())?;
            put_whole(alloc, members, "row", *row as u64)
        }
        Refusal::BelowHeld { row } => put_whole(alloc, members, "row", *row as u64),
        _ => Ok(()),
    }
}

/// The value of a journey that made an item, and where it is now.
fn moved_value(
    alloc: Global,
    id: u64,
    item: &Item,
    pos: usize,
    phase: Phase,
) -> Result<Value, AllocError>
    ensures value { IfOk result (λ value. view value ≡ moved_data id item.now pos phase) }
{
    let mut members = Map::new(alloc);
    put(&mut members, alloc, "item", item_value(alloc, item)?)?;
    put_standing(alloc, &mut members, id, pos, phase)?;
    Ok(Value::Object(members))
}

/// The value of a journey with its history, oldest item first.
pub fn journey_value(
    alloc: Global,
    id: u64,
    cursor: Cursor,
    history: &[Item],
) -> Result<Value, AllocError>
    ensures value { IfOk result (λ value. view value ≡ journey_data id cursor history.now) }
{
    let mut members = Map::new(alloc);
    put(&mut members, alloc, "history", items_value(alloc, history)?)?;
    put_standing(alloc, &mut members, id, cursor.pos, cursor.phase)?;
    Ok(Value::Object(members))
}

/// The value of journeys under this name, in the order in which they are given.
pub fn listed_value(
    alloc: Global,
    name: &str,
    owners: Owners,
    briefs: &[Brief],
) -> Result<Value, AllocError>
    ensures value { IfOk result (λ value. view value ≡ listed_data name.now owners briefs.now) }
{
    let mut members = Map::new(alloc);
    let listed = briefs_value(alloc, owners, briefs)?;
    put(&mut members, alloc, name, listed)?;
    Ok(Value::Object(members))
}

/// The list of the items of a history, oldest first.
fn items_value(alloc: Global, history: &[Item]) -> Result<Value, AllocError>
    ensures value { IfOk result (λ value. view value ≡ list (map item_data history.now)) }
{
    let mut values = Vec::with_capacity(alloc, history.len())?;
    for item in history {
        values.push(item_value(alloc, item)?)?;
    }
    Ok(Value::Array(values))
}

/// The list of journeys without their histories, in the order in which they are given.
fn briefs_value(alloc: Global, owners: Owners, briefs: &[Brief]) -> Result<Value, AllocError>
    ensures value { IfOk result (λ value. view value ≡ list (map (brief_data owners) briefs.now)) }
{
    let mut values = Vec::with_capacity(alloc, briefs.len())?;
    for brief in briefs {
        values.push(brief_value(alloc, owners, brief)?)?;
    }
    Ok(Value::Array(values))
}

/// The value of a journey without its history.
pub fn brief_value(alloc: Global, owners: Owners, brief: &Brief) -> Result<Value, AllocError>
    ensures value { IfOk result (λ value. view value ≡ brief_data owners brief.now) }
{
    let mut members = Map::new(alloc);
    if owners == Owners::Shown {
        put_text(alloc, &mut members, "agent", brief.agent.as_str())?;
    }
    let Cursor { pos, phase, .. } = brief.cursor;
    put_standing(alloc, &mut members, brief.id, pos, phase)?;
    Ok(Value::Object(members))
}

/// The value of how many events, journeys and unfinished journeys there are.
pub fn health_value(alloc: Global, counts: Counts) -> Result<Value, AllocError>
    ensures value { IfOk result (λ value. view value ≡ health_data counts) }
{
    let Counts {
        events,
        journeys,
        unfinished,
    } = counts;
    let mut members = Map::new(alloc);
    put_whole(alloc, &mut members, "events", events)?;
    put_whole(alloc, &mut members, "journeys", journeys)?;
    put_whole(alloc, &mut members, "unfinished", unfinished)?;
    Ok(Value::Object(members))
}

/// The value of the agent who asks.
pub fn agent_value(alloc: Global, agent: Agent) -> Result<Value, AllocError>
    ensures value { IfOk result (λ value. view value ≡ agent_data agent) }
{
    json!(in alloc; {"agent": agent.as_str()})
}

/// The value that says that the desk stops.
pub fn stopping_value(alloc: Global) -> Result<Value, AllocError>
    ensures value { IfOk result (λ value. view value ≡ stopping_data) }
{
    json!(in alloc; {"state": "stopping"})
}

/// The value of an item, its text.
fn item_value(alloc: Global, item: &Item) -> Result<Value, AllocError>
    ensures value { IfOk result (λ value. view value ≡ item_data item.now) }
{
    Ok(Value::String(item.text(alloc)?))
}
