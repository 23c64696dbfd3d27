//! The text of what was counted (the text format of Prometheus, version 0.0.4).
ghost use Rattle.std.specs.Prelude.{◌≡◌, IfOk};
ghost use Rattle.std.specs.String.{string_bytes};
ghost use Rattle.http_log.specs.MetricsText.{buckets_text, commands_text, connections_text, counts_text, ledger_text, metrics_text, requests_text, sample_text};

use crate::counting::{Bucket, Count, Metrics};
use saga_core::Counts;
use std::alloc::{AllocError, Global};

/// The text of what a desk has and of what it has counted. The only fault is out of memory.
pub fn metrics_text(alloc: Global, counts: Counts, metrics: &Metrics) -> Result<String, AllocError>
    ensures text { IfOk result (λ text. string_bytes text ≡ metrics_text counts metrics.now) }
{
    let ledger = ledger_text(alloc, counts)?;
    let connections = connections_text(alloc, metrics)?;
    let requests = requests_text(alloc, metrics)?;
    let commands = commands_text(alloc, metrics)?;
    format!(in alloc; "{ledger}{connections}{requests}{commands}")
}

/// What the desk has.
fn ledger_text(alloc: Global, counts: Counts) -> Result<String, AllocError>
    ensures text { IfOk result (λ text. string_bytes text ≡ ledger_text counts) }
{
    let (events, journeys, unfinished) = (counts.events, counts.journeys, counts.unfinished);
    format!(in alloc;
        "# HELP desk_events_total Events of the desk.\n\
        # TYPE desk_events_total counter\n\
        desk_events_total {events}\n\
        # HELP desk_journeys_total Journeys that were begun.\n\
        # TYPE desk_journeys_total counter\n\
        desk_journeys_total {journeys}\n\
        # HELP desk_journeys_unfinished Journeys that run or go back.\n\
        # TYPE desk_journeys_unfinished gauge\n\
        desk_journeys_unfinished {unfinished}\n"
    )
}

/// The connections.
fn connections_text(alloc: Global, metrics: &Metrics) -> Result<String, AllocError>
    ensures text { IfOk result (λ text. string_bytes text ≡ connections_text metrics.now) }
{
    let open = metrics.connections;
    let ended = counts_text(alloc, "desk_connections_ended_total{why=\"", &metrics.ended)?;
    format!(in alloc;
        "# HELP desk_connections_open Connections that are open.\n\
        # TYPE desk_connections_open gauge\n\
        desk_connections_open {open}\n\
        # HELP desk_connections_ended_total Connections that ended, by why.\n\
        # TYPE desk_connections_ended_total counter\n\
        {ended}"
    )
}

/// The requests.
fn requests_text(alloc: Global, metrics: &Metrics) -> Result<String, AllocError>
    ensures text { IfOk result (λ text. string_bytes text ≡ requests_text metrics.now) }
{
    let requests = counts_text(alloc, "desk_requests_total{status=\"", &metrics.requests)?;
    format!(in alloc;
        "# HELP desk_requests_total Requests that were answered or lost their pages, by status.\n\
        # TYPE desk_requests_total counter\n\
        {requests}"
    )
}

/// How long commands took: a histogram, whose sum is a number of microseconds.
fn commands_text(alloc: Global, metrics: &Metrics) -> Result<String, AllocError>
    ensures text { IfOk result (λ text. string_bytes text ≡ commands_text metrics.now) }
{
    let within = buckets_text(alloc, "desk_command_seconds_bucket{le=\"", &metrics.within)?;
    let (commands, micros) = (metrics.commands, metrics.micros);
    format!(in alloc;
        "# HELP desk_command_seconds How long the turns of accepted POSTs took, commits included.\n\
        # TYPE desk_command_seconds histogram\n\
        {within}\
        desk_command_seconds_bucket{{le=\"+Inf\"}} {commands}\n\
        desk_command_seconds_sum {micros}e-6\n\
        desk_command_seconds_count {commands}\n"
    )
}

/// A sample of a word, which begins so.
fn sample_text(alloc: Global, start: &str, word: &str, value: u64) -> Result<String, AllocError>
    ensures text { IfOk result (λ text.
        string_bytes text ≡ sample_text start.now word.now value) }
{
    format!(in alloc; "{start}{word}\"}} {value}\n")
}

/// A sample for each count, which begins so before its word.
#[tactic(auto, using(crate::proofs::MetricsLemmas::flat_more))]
fn counts_text(alloc: Global, start: &str, counts: &[Count]) -> Result<String, AllocError>
    ensures text { IfOk result (λ text.
        string_bytes text ≡ counts_text start.now counts.now) }
{
    let mut text = String::new(alloc);
    for count in counts {
        let sample = sample_text(alloc, start, count.word, count.times)?;
        text.push_str(sample.as_str())?;
    }
    Ok(text)
}

/// A sample for each bucket, which begins so before its word.
#[tactic(auto, using(crate::proofs::MetricsLemmas::flat_more))]
fn buckets_text(alloc: Global, start: &str, buckets: &[Bucket]) -> Result<String, AllocError>
    ensures text { IfOk result (λ text.
        string_bytes text ≡ buckets_text start.now buckets.now) }
{
    let mut text = String::new(alloc);
    for bucket in buckets {
        let sample = sample_text(alloc, start, bucket.word, bucket.times)?;
        text.push_str(sample.as_str())?;
    }
    Ok(text)
}
