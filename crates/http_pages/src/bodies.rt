//! The JSON bodies of pages, in their compact text.
ghost use Rattle.std.specs.Prelude.{◌≡◌, IfOk};
ghost use Rattle.std.specs.String.{string_bytes};
ghost use Rattle.serde_json.specs.Written.{compact_text};
ghost use Rattle.http_pages.specs.Bodies.{refusal_data, reply_data, journey_data, unfinished_data};
ghost use Rattle.http_pages.specs.Bodies.{agent_data, brief_data, health_data, mine_data, stopping_data};
ghost use Rattle.plan.specs.PlanData.{plan_data};

use crate::plans::plan_value;
use crate::values::{
    agent_value, brief_value, health_value, journey_value, listed_value, refusal_value,
    reply_value, stopping_value,
};
use commands::{Agent, Cursor, Item, Refusal, Reply};
use plan::Plan;
use saga_core::{Brief, Counts};
use std::alloc::{AllocError, Global};

/// The body that answers a command, as `{"journey":1}`. The only fault is out of memory.
pub fn reply_body(alloc: Global, reply: &Reply) -> Result<String, AllocError>
    ensures body { IfOk result (λ body. string_bytes body ≡ compact_text (reply_data reply.now)) }
{
    let value = reply_value(alloc, reply)?;
    value.to_string(alloc)
}

/// The body that reports a refusal, as `{"name":"NoKey","refused":3}`. The only fault is out of memory.
pub fn refusal_body(alloc: Global, refusal: &Refusal) -> Result<String, AllocError>
    ensures body { IfOk result
        (λ body. string_bytes body ≡ compact_text (refusal_data refusal.now)) }
{
    let value = refusal_value(alloc, refusal)?;
    value.to_string(alloc)
}

/// The body that shows a journey with its history, oldest item first. The only fault is out of memory.
#[tactic(auto, using(crate::proofs::FloatLemmas::no_float_items))]
pub fn journey_body(
    alloc: Global,
    id: u64,
    cursor: Cursor,
    history: &[Item],
) -> Result<String, AllocError>
    ensures body { IfOk result
        (λ body. string_bytes body ≡ compact_text (journey_data id cursor history.now)) }
{
    let value = journey_value(alloc, id, cursor, history)?;
    value.to_string(alloc)
}

/// The body that shows a plan: its steps, each with its options, and its tries, in the form in which a plan is sent. The only
/// fault is out of memory.
#[tactic(auto, using(crate::proofs::PlanLemmas::no_float_plan))]
pub fn plan_body(alloc: Global, plan: &Plan) -> Result<String, AllocError>
    ensures body { IfOk result (λ body. string_bytes body ≡ compact_text (plan_data plan.now)) }
{
    let value = plan_value(alloc, plan)?;
    value.to_string(alloc)
}

/// Whether a list of journeys shows whose each is.
#[derive(Clone, Copy, Debug, PartialEq, Eq)]
pub enum Owners {
    /// It does not: all are those of who asks.
    Hidden,
    /// Each has its agent.
    Shown,
}

/// The body that shows journeys that are not finished, in the order in which they are given. The only fault is out of
/// memory.
#[tactic(auto, using(crate::proofs::FloatLemmas::no_float_briefs))]
pub fn unfinished_body(
    alloc: Global,
    owners: Owners,
    briefs: &[Brief],
) -> Result<String, AllocError>
    ensures body { IfOk result
        (λ body. string_bytes body ≡ compact_text (unfinished_data owners briefs.now)) }
{
    let value = listed_value(alloc, "unfinished", owners, briefs)?;
    value.to_string(alloc)
}

/// The body that shows journeys of one agent, finished ones too, in the order in which they are given. The only fault is
/// out of memory.
#[tactic(auto, using(crate::proofs::FloatLemmas::no_float_briefs))]
pub fn mine_body(alloc: Global, owners: Owners, briefs: &[Brief]) -> Result<String, AllocError>
    ensures body { IfOk result
        (λ body. string_bytes body ≡ compact_text (mine_data owners briefs.now)) }
{
    let value = listed_value(alloc, "mine", owners, briefs)?;
    value.to_string(alloc)
}

/// The body that shows a journey without its history, as a list of journeys does. The only fault is out of memory.
#[tactic(auto, using(crate::proofs::FloatLemmas::no_float_brief))]
pub fn brief_body(alloc: Global, owners: Owners, brief: &Brief) -> Result<String, AllocError>
    ensures body { IfOk result
        (λ body. string_bytes body ≡ compact_text (brief_data owners brief.now)) }
{
    let value = brief_value(alloc, owners, brief)?;
    value.to_string(alloc)
}

/// The body that shows how many events and journeys there are, as `{"events":9,"journeys":2,"unfinished":1}`. The only
/// fault is out of memory.
pub fn health_body(alloc: Global, counts: Counts) -> Result<String, AllocError>
    ensures body { IfOk result (λ body. string_bytes body ≡ compact_text (health_data counts)) }
{
    let value = health_value(alloc, counts)?;
    value.to_string(alloc)
}

/// The body that shows the agent who asks, as `{"agent":"ann"}`. The only fault is out of memory.
pub fn agent_body(alloc: Global, agent: Agent) -> Result<String, AllocError>
    ensures body { IfOk result (λ body. string_bytes body ≡ compact_text (agent_data agent)) }
{
    let value = agent_value(alloc, agent)?;
    value.to_string(alloc)
}

/// The body that says that the desk stops, `{"state":"stopping"}`. The only fault is out of memory.
pub fn stopping_body(alloc: Global) -> Result<String, AllocError>
    ensures body { IfOk result (λ body. string_bytes body ≡ compact_text stopping_data) }
{
    let value = stopping_value(alloc)?;
    value.to_string(alloc)
}
