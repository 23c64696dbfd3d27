//! Members of a JSON value. Nothing is allocated: each part is borrowed from the value.
ghost use Rattle.std.specs.Prelude.{◌≡◌, map, option_map, is_some};
ghost use Rattle.std.specs.List.{list_all};
ghost use Rattle.serde_json.specs.Find.{get, as_bool};
ghost use Rattle.serde_json.specs.View.{view};
ghost use Rattle.plan.specs.PlanJson.{has_members as is_object_of, has_just as is_object_with, in_member, whole_number, list_of, text_of};
ghost use Rattle.plan.specs.Levels.{views};

use serde_json::Value;

/// Whether the value is an object with just these members.
pub fn has_just(value: &Value, names: &[&str]) -> bool
    ensures just { result ≡ is_object_with (map (λ name. name.now) names.now) (view value.now) }
{
    has_members(value, names.len()) && has_each(value, names)
}

/// Whether the value is an object with so many members.
#[tactic(auto, using(crate::proofs::MemberLemmas::members_counted))]
fn has_members(value: &Value, count: usize) -> bool
    ensures members { result ≡ is_object_of count (view value.now) }
{
    match value.as_object() {
        Some(members) => members.len() == count,
        None => false,
    }
}

/// Whether the value has each of these members.
fn has_each(value: &Value, names: &[&str]) -> bool
    ensures each { result ≡ list_all (λ name. is_some (get name.now (view value.now))) names.now }
{
    names.iter().all(|name| has_member(value, *name))
}

/// Whether the value has a member of this name.
fn has_member(value: &Value, name: &str) -> bool
    ensures there { result ≡ is_some (get name.now (view value.now)) }
{
    value.get(name).is_some()
}

/// The list under this name. Returns `None` if there is none.
#[tactic(auto, using(crate::proofs::MemberLemmas::list_found))]
pub fn list_in<'a>(value: &'a Value, name: &str) -> Option<&'a [Value]>
    ensures list { option_map (λ list. views list.now) result
        ≡ in_member name.now list_of (view value.now) }
{
    let list = value.get(name)?.as_array()?;
    Some(list.as_slice())
}

/// The text under this name, empty if there is none.
pub fn text_in<'a>(value: &'a Value, name: &str) -> &'a str
    ensures text { result.now ≡ text_of name.now (view value.now) }
{
    value.get(name).and_then(Value::as_str).unwrap_or("")
}

/// The whole number from 0 on under this name. Returns `None` if there is none.
pub fn number_in(value: &Value, name: &str) -> Option<u64>
    ensures number { result ≡ in_member name.now whole_number (view value.now) }
{
    value.get(name)?.as_u64()
}

/// The boolean under this name. Returns `None` if there is none.
pub fn answer_in(value: &Value, name: &str) -> Option<bool>
    ensures answer { result ≡ in_member name.now as_bool (view value.now) }
{
    value.get(name)?.as_bool()
}
