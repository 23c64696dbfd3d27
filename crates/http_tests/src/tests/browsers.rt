//! The door with a page for browsers: who gets the page, and under which hosts requests are answered.
use crate::tests::doors::{ONLY_GET, is_answered_at};
use crate::tests::orders::{BAD_HEAD, NO_AGENT, NOTHING_UNFINISHED, UNKNOWN_PATH};
use crate::tests::talks::{Page, Talk, put};
use desk_http::{Door, Site};
use http_pages::HtmlPage;
use std::alloc::Global;
use std::process::Abort;

/// A desk at port 8080, with a page.
const AT_8080: Door = Door::Page(Site {
    port: 8080,
    page: HtmlPage {
        text: "<!doctype html><title>Desk</title>",
        policy: "default-src 'none'",
    },
});

/// The page as it is sent.
const SHOWN: &str =
    "HTTP/1.1 200 OK\r\nContent-Length: 34\r\nContent-Type: text/html; charset=utf-8\r\nContent-Security-Policy: default-src 'none'\r\n\r\n<!doctype html><title>Desk</title>";

/// Sends a request under a host, with these further fields.
fn ask_under(rt: &impl Abort, talk: &mut Talk, host: &str, asked: &str, fields: &str) {
    put(
        rt,
        &mut talk.sent,
        &[asked, " HTTP/1.1\r\nHost: ", host, "\r\n", fields, "\r\n"],
    );
}

const OWN_HOST: &str = "127.0.0.1:8080";

const ANN: &str = "Desk-Agent: ann\r\n";

// a request, its further fields, and its page where the desk has a page; all but the first two get the same without it
#[rattlefmt::skip]
static AT_THE_PAGE: [(&str, &str, Page); 7] = [
    ("POST /",          "Content-Length: 0\r\n", ONLY_GET),
    ("DELETE /",        ANN,                     ONLY_GET),
    ("GET /unfinished", ANN,                     NOTHING_UNFINISHED),
    ("GET /unfinished", "",                      NO_AGENT),
    ("GET /?x",         "",                      UNKNOWN_PATH),
    ("GET /index.html", "",                      UNKNOWN_PATH),
    ("OPTIONS /mine",   "Origin: null\r\n",      ONLY_GET),
];

#[test]
fn anybody_gets_the_page(rt: HostRuntime) {
    let alloc = rt.alloc();
    let mut talk = Talk::new(alloc);
    for fields in ["", ANN, "Desk-Agent: Ann\r\n"] {
        ask_under(&rt, &mut talk, OWN_HOST, "GET /", fields);
        talk.tell(&rt, &[SHOWN]);
    }
    for &(asked, fields, page) in &AT_THE_PAGE {
        ask_under(&rt, &mut talk, OWN_HOST, asked, fields);
        talk.page(&rt, alloc, page);
    }
    is_answered_at(&rt, alloc, AT_8080, &talk, 0);
}

#[test]
fn without_a_page_the_path_is_unknown(rt: HostRuntime) {
    let alloc = rt.alloc();
    for door in [Door::Port, Door::House] {
        let mut talk = Talk::new(alloc);
        for asked in ["GET /", "DELETE /"] {
            ask_under(&rt, &mut talk, "d", asked, ANN);
            talk.page(&rt, alloc, UNKNOWN_PATH);
        }
        is_answered_at(&rt, alloc, door, &talk, 0);
    }
}

// hosts that name this machine and the port
static OWN_HOSTS: [&str; 4] = [
    OWN_HOST,
    "localhost:8080",
    "[::1]:8080",
    " localhost:8080\t",
];

#[test]
fn requests_under_own_hosts_are_answered(rt: HostRuntime) {
    let alloc = rt.alloc();
    let mut talk = Talk::new(alloc);
    for &host in &OWN_HOSTS {
        ask_under(&rt, &mut talk, host, "GET /", "");
        talk.tell(&rt, &[SHOWN]);
        ask_under(&rt, &mut talk, host, "GET /unfinished", ANN);
        talk.page(&rt, alloc, NOTHING_UNFINISHED);
    }
    is_answered_at(&rt, alloc, AT_8080, &talk, 0);
}

// other hosts: another name or port, none, or none of these texts
#[rattlefmt::skip]
static OTHER_HOSTS: [&str; 18] = [
    "", "d", "127.0.0.1", "localhost", "[::1]", "127.0.0.1:", "127.0.0.1:80", "127.0.0.1:808", "127.0.0.1:80800",
    "127.0.0.1:08080", "127.0.0.1: 8080", "127.0.0.2:8080", "evil.example:8080", "localhost.evil.example:8080",
    "LOCALHOST:8080", "localhost.:8080", "::1:8080", "ann@localhost:8080",
];

/// Under this host a request is refused, and nothing behind it is answered.
fn is_refused_under(rt: &impl Abort, alloc: Global, host: &str, asked: &str) {
    let mut talk = Talk::new(alloc);
    ask_under(rt, &mut talk, host, asked, ANN);
    talk.page(rt, alloc, BAD_HEAD);
    ask_under(rt, &mut talk, OWN_HOST, "GET /unfinished", ANN);
    is_answered_at(rt, alloc, AT_8080, &talk, 0);
}

#[test]
fn requests_under_other_hosts_are_refused(rt: HostRuntime) {
    for &host in &OTHER_HOSTS {
        for asked in ["GET /", "GET /unfinished", "GET /health"] {
            is_refused_under(&rt, rt.alloc(), host, asked);
        }
    }
}

#[test]
fn without_a_page_each_host_is_answered(rt: HostRuntime) {
    let alloc = rt.alloc();
    for door in [Door::Port, Door::House] {
        let mut talk = Talk::new(alloc);
        for &host in &OTHER_HOSTS {
            ask_under(&rt, &mut talk, host, "GET /unfinished", ANN);
            talk.page(&rt, alloc, NOTHING_UNFINISHED);
        }
        is_answered_at(&rt, alloc, door, &talk, 0);
    }
}
