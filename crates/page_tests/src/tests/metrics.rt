//! What a desk has counted, and how a monitor is shown it.
use http_log::{Metrics, Why, metrics_text};
use saga_core::Counts;
use std::test::Fail;

/// What a desk of nine events shows, after a few requests.
#[rattlefmt::skip]
const SHOWN: &str = "\
# HELP desk_events_total Events of the desk.
# TYPE desk_events_total counter
desk_events_total 9
# HELP desk_journeys_total Journeys that were begun.
# TYPE desk_journeys_total counter
desk_journeys_total 2
# HELP desk_journeys_unfinished Journeys that run or go back.
# TYPE desk_journeys_unfinished gauge
desk_journeys_unfinished 1
# HELP desk_connections_open Connections that are open.
# TYPE desk_connections_open gauge
desk_connections_open 1
# HELP desk_connections_ended_total Connections that ended, by why.
# TYPE desk_connections_ended_total counter
desk_connections_ended_total{why=\"left\"} 1
desk_connections_ended_total{why=\"cut-off\"} 0
desk_connections_ended_total{why=\"not-taken\"} 0
desk_connections_ended_total{why=\"closed\"} 0
desk_connections_ended_total{why=\"late-request\"} 0
desk_connections_ended_total{why=\"late-page\"} 0
desk_connections_ended_total{why=\"displaced\"} 0
desk_connections_ended_total{why=\"memory\"} 0
desk_connections_ended_total{why=\"stopped\"} 1
# HELP desk_requests_total Requests that were answered or lost their pages, by status.
# TYPE desk_requests_total counter
desk_requests_total{status=\"200\"} 2
desk_requests_total{status=\"204\"} 0
desk_requests_total{status=\"400\"} 0
desk_requests_total{status=\"404\"} 0
desk_requests_total{status=\"405\"} 0
desk_requests_total{status=\"409\"} 1
desk_requests_total{status=\"411\"} 0
desk_requests_total{status=\"413\"} 0
desk_requests_total{status=\"431\"} 0
desk_requests_total{status=\"501\"} 0
desk_requests_total{status=\"505\"} 0
desk_requests_total{status=\"lost\"} 0
desk_requests_total{status=\"?\"} 0
# HELP desk_command_seconds How long the turns of accepted POSTs took, commits included.
# TYPE desk_command_seconds histogram
desk_command_seconds_bucket{le=\"0.0005\"} 0
desk_command_seconds_bucket{le=\"0.001\"} 0
desk_command_seconds_bucket{le=\"0.0025\"} 1
desk_command_seconds_bucket{le=\"0.005\"} 2
desk_command_seconds_bucket{le=\"0.01\"} 2
desk_command_seconds_bucket{le=\"0.025\"} 2
desk_command_seconds_bucket{le=\"0.05\"} 2
desk_command_seconds_bucket{le=\"0.1\"} 2
desk_command_seconds_bucket{le=\"0.25\"} 2
desk_command_seconds_bucket{le=\"1\"} 2
desk_command_seconds_bucket{le=\"+Inf\"} 3
desk_command_seconds_sum 2007501e-6
desk_command_seconds_count 3
";

#[test]
fn a_monitor_is_shown_what_was_counted(rt: HostRuntime) -> Result<(), Fail> {
    let counts = Counts {
        events: 9,
        journeys: 2,
        unfinished: 1,
    };
    let mut metrics = Metrics::new();
    for _ in 0..3 {
        metrics.comes();
    }
    metrics.ends(Why::Left);
    metrics.ends(Why::Stopped);
    for status in [b"200", b"409", b"200"] {
        metrics.answers(status);
    }
    // Within a bound is up to it.
    for micros in [2_500, 5_000, 2_000_001] {
        metrics.carries(micros);
    }
    let text = metrics_text(rt.alloc(), counts, &metrics)?;
    assert_eq!(rt; text.as_str(), SHOWN);
    Ok(())
}

#[test]
fn the_bounds_of_commands_are_one_in_both_units(rt: HostRuntime) -> Result<(), Fail> {
    for bucket in &Metrics::new().within {
        let micros = bucket.micros;
        let parts = format!(in rt.alloc(); "{}.{:06}", micros / 1_000_000, micros % 1_000_000)?;
        let text = parts.as_str().trim_end_matches('0').trim_end_matches('.');
        assert_eq!(rt; bucket.word, text);
    }
    Ok(())
}
