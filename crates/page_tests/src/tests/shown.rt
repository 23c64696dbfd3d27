//! What is shown of own journeys, of how the desk fares, and to browsers.
use super::{AT_ONE, AT_THE_END, goes_out, reads};
use commands::{Agent, Cursor};
use http_pages::{Body, HtmlPage, Owners, Page, agent_body, health_body, mine_body, shown_page};
use saga_core::{Brief, Counts};
use std::alloc::{AllocError, Global};

/// A journey of the agent `desk`.
fn brief(id: u64, cursor: Cursor) -> Brief {
    let agent = Agent::house();
    Brief { id, agent, cursor }
}

#[test]
fn own_journeys_are_shown_to_their_agent_and_to_the_house(rt: HostRuntime) {
    let alloc = rt.alloc();
    reads(
        &rt,
        mine_body(alloc, Owners::Hidden, &[]),
        r#"{"mine":[]}"#,
        11,
    );
    let both = [brief(7, AT_ONE), brief(9, AT_THE_END)];
    let body = mine_body(alloc, Owners::Hidden, &both);
    let expected =
        r#"{"mine":[{"journey":7,"pos":1,"state":"back","target":0},{"journey":9,"pos":1,"state":"ended"}]}"#;
    reads(&rt, body, expected, 96);
    let ended = [brief(9, AT_THE_END)];
    let body = mine_body(alloc, Owners::Shown, &ended);
    let expected = r#"{"mine":[{"agent":"desk","journey":9,"pos":1,"state":"ended"}]}"#;
    reads(&rt, body, expected, 63);
}

#[test]
fn the_desk_says_how_much_it_has(rt: HostRuntime) {
    let counts = Counts {
        events: 12,
        journeys: 5,
        unfinished: 2,
    };
    let expected = r#"{"events":12,"journeys":5,"unfinished":2}"#;
    reads(&rt, health_body(rt.alloc(), counts), expected, 41);
}

#[test]
fn the_desk_says_who_asks(rt: HostRuntime) {
    let longest = Agent::parse("abcdefghijklm123").expect(&rt, "an agent");
    let expected = r#"{"agent":"abcdefghijklm123"}"#;
    reads(&rt, agent_body(rt.alloc(), longest), expected, 28);
}

/// What a monitor reads.
fn monitored(alloc: Global) -> Result<Page, AllocError> {
    let text = String::from_str(alloc, "desk_events_total 9\n")?;
    Ok(shown_page(Body::Metrics(text)))
}

#[test]
fn what_a_monitor_reads_goes_out_with_the_version_of_its_form(rt: HostRuntime) {
    let expected =
        "HTTP/1.1 200 OK\r\nContent-Length: 20\r\nContent-Type: text/plain; version=0.0.4\r\n\r\ndesk_events_total 9\n";
    goes_out(
        &rt,
        rt.alloc(),
        monitored(rt.alloc()),
        false,
        false,
        expected,
    );
}

/// A page for browsers.
const HTML: HtmlPage = HtmlPage {
    text: "<!doctype html><title>é</title>",
    policy: "default-src 'none'",
};

/// The page that shows it.
fn browsed() -> Result<Page, AllocError> {
    Ok(shown_page(Body::Html(HTML)))
}

#[test]
fn a_page_for_browsers_goes_out_with_its_policy(rt: HostRuntime) {
    let expected =
        "HTTP/1.1 200 OK\r\nContent-Length: 32\r\nContent-Type: text/html; charset=utf-8\r\nContent-Security-Policy: default-src 'none'\r\n\r\n<!doctype html><title>é</title>";
    goes_out(&rt, rt.alloc(), browsed(), false, false, expected);
    let expected =
        "HTTP/1.1 200 OK\r\nContent-Length: 32\r\nContent-Type: text/html; charset=utf-8\r\nContent-Security-Policy: default-src 'none'\r\nConnection: close\r\n\r\n<!doctype html><title>é</title>";
    goes_out(&rt, rt.alloc(), browsed(), true, false, expected);
}
