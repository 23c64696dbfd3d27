//! Plans as JSON texts: the plan whose value a text is, read without making that value.
//!
//! A text is read as values that borrow it, so that nothing but lists is allocated. `None` says nothing about the text: it may
//! be no plan, or memory may be out. The caller then makes the value, and reports what is wrong with it.
ghost use Rattle.std.specs.Prelude.{◌≡◌, IfSome, map};
ghost use Rattle.json.specs.Value.{members_view};
ghost use Rattle.serde_json.specs.Data.{Data, no_members, number, object, put, string, unsigned};
ghost use Rattle.serde_json.specs.Read.{of_members};
ghost use Rattle.plan.specs.PlanData.{step_data, want_data};
ghost use Rattle.plan.specs.PlanModel.{step_said};
ghost use Rattle.desk_http.specs.PlanTexts.{AreData, AreInOrder, IsData, IsPlanText, IsPlanValue, PairsAs, parts_data};

use allotment::{Kind, Want};
use commands::number_in;
use json::{Reader, Scratch, Value};
use plan::{MOST_TRIES, Plan, PlanStep};
use std::alloc::Global;

/// How deep the values of a text may nest.
const MOST_LEVELS: usize = 127;

/// The largest number that is read.
const MOST_NUMBER: usize = 255;

/// The plan whose JSON value the text is.
pub(crate) fn plan_in(alloc: Global, text: &str) -> Option<Plan>
    ensures plan { IfSome result (IsPlanText text.now) }
{
    let mut scratch = Scratch::new(alloc);
    let Ok(mut reader) = Reader::new(text, &mut scratch) else {
        return None;
    };
    let Ok(value) = Value::read(alloc, &mut reader, MOST_LEVELS) else {
        return None;
    };
    if reader.next().is_some() {
        return None;
    }
    plan_of(alloc, &value)
}

/// The plan whose value this is.
fn plan_of(alloc: Global, value: &Value<'_>) -> Option<Plan>
    ensures plan { IfSome result (IsPlanValue value.now) }
{
    let (steps, tries) = pair_in(value, "steps", "tries")?;
    let Value::Array(steps) = steps else {
        return None;
    };
    let steps = steps_of(alloc, steps.as_slice())?;
    let tries = number_of(tries)?;
    if tries > usize::from(MOST_TRIES) {
        return None;
    }
    let Ok(plan) = Plan::from_steps(steps, tries as u8) else {
        return None;
    };
    // Called for what it says: the plan keeps the limits.
    let _steps = plan.steps();
    Some(plan)
}

/// The steps whose values these are.
fn steps_of(alloc: Global, values: &[Value<'_>]) -> Option<Vec<PlanStep>>
    ensures steps { IfSome result
        (λ steps. AreData values.now (map (λ step. step_data (step_said step)) steps.items)) }
{
    let Ok(mut steps) = Vec::with_capacity(alloc, values.len()) else {
        return None;
    };
    for value in values {
        let step = step_of(alloc, value)?;
        let Ok(()) = steps.push(step) else {
            return None;
        };
    }
    Some(steps)
}

/// The step whose value this is.
fn step_of(alloc: Global, value: &Value<'_>) -> Option<PlanStep>
    ensures step { IfSome result (λ step. IsData value.now (step_data (step_said step))) }
{
    let (options, save) = pair_in(value, "options", "save")?;
    let Value::Array(options) = options else {
        return None;
    };
    let options = wants_of(alloc, options.as_slice())?;
    let save = save.as_bool()?;
    Some(PlanStep { options, save })
}

/// The wants whose values these are.
fn wants_of(alloc: Global, values: &[Value<'_>]) -> Option<Vec<Want>>
    ensures wants { IfSome result (λ wants. AreData values.now (map want_data wants.items)) }
{
    let Ok(mut wants) = Vec::with_capacity(alloc, values.len()) else {
        return None;
    };
    for value in values {
        let want = want_of(value)?;
        let Ok(()) = wants.push(want) else {
            return None;
        };
    }
    Some(wants)
}

/// The want whose value this is.
fn want_of(value: &Value<'_>) -> Option<Want>
    ensures want { IfSome result (λ want. IsData value.now (want_data want)) }
{
    let Value::Object(members) = value else {
        return None;
    };
    parts_of(members.as_slice())?.want()
}

/// The parts of an option with these members, of which no two have the same name.
fn parts_of<'a>(members: &[(&'a str, Value<'a>)]) -> Option<Parts<'a>>
    ensures parts { IfSome result
        (λ parts. of_members (members_view members.now) no_members ≡ Some (parts_data parts)) }
{
    let mut parts = Parts {
        count: None,
        first: None,
        kind: None,
        nights: None,
        product: None,
        supplier: None,
    };
    for member in members {
        parts = parts.with(member.0, &member.1)?;
    }
    Some(parts)
}

/// The parts of an option, as far as they are known.
#[derive(Clone, Copy)]
struct Parts<'a> {
    count: Option<usize>,
    first: Option<&'a str>,
    kind: Option<&'a str>,
    nights: Option<usize>,
    product: Option<&'a str>,
    supplier: Option<&'a str>,
}

impl<'a> Parts<'a> {
    /// The parts with this member, which is one of an option, and new.
    fn with(&self, name: &str, value: &Value<'a>) -> Option<Parts<'a>>
        ensures with { IfSome result (λ parts. (d : Data) × IsData value.now d
            × (put name.now d (parts_data self.now) ≡ parts_data parts)) }
    {
        match name {
            "count" if self.count.is_none() => Some(Parts {
                count: Some(number_of(value)?),
                ..*self
            }),
            "first" if self.first.is_none() => Some(Parts {
                first: Some(text_of(value)?),
                ..*self
            }),
            "kind" if self.kind.is_none() => Some(Parts {
                kind: Some(text_of(value)?),
                ..*self
            }),
            "nights" if self.nights.is_none() => Some(Parts {
                nights: Some(number_of(value)?),
                ..*self
            }),
            "product" if self.product.is_none() => Some(Parts {
                product: Some(text_of(value)?),
                ..*self
            }),
            "supplier" if self.supplier.is_none() => Some(Parts {
                supplier: Some(text_of(value)?),
                ..*self
            }),
            _ => None,
        }
    }

    /// The want of these parts, if all are known and nothing is wrong with it.
    fn want(&self) -> Option<Want>
        ensures want { IfSome result (λ want. object (parts_data self.now) ≡ want_data want) }
    {
        let kind = Kind::from_word(self.kind?)?;
        let supplier = self.supplier?;
        let product = self.product?;
        let first = self.first?;
        let nights = self.nights? as u64;
        let count = self.count? as u64;
        match Want::new(kind, supplier, product, first, nights, count) {
            Ok(want) => Some(want),
            Err(_) => None,
        }
    }
}

/// The two values of an object that has just the members of these names.
fn pair_in<'v, 'a>(
    value: &'v Value<'a>,
    first: &str,
    second: &str,
) -> Option<(&'v Value<'a>, &'v Value<'a>)>
    requires order { AreInOrder first.now second.now }

    ensures pair { IfSome result
        (λ pair. PairsAs value.now first.now pair.0.now second.now pair.1.now) }
{
    let Value::Object(members) = value else {
        return None;
    };
    let [one, other] = members.as_slice() else {
        return None;
    };
    if one.0 == first && other.0 == second {
        Some((&one.1, &other.1))
    } else if one.0 == second && other.0 == first {
        Some((&other.1, &one.1))
    } else {
        None
    }
}

/// The number from 0 to 255 that this is.
fn number_of(value: &Value<'_>) -> Option<usize>
    ensures number { IfSome result (λ n. IsData value.now (number (unsigned n))) }
{
    number_in(value.as_number()?, 0, MOST_NUMBER)
}

/// The text that this is.
fn text_of<'a>(value: &Value<'a>) -> Option<&'a str>
    ensures text { IfSome result (λ text. IsData value.now (string text.now)) }
{
    Some(value.as_str()?)
}
