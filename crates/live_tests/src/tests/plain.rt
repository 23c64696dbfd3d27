//! Requests of many peers, in any order of readiness, beside a plain program that answers one after another.
use crate::tests::dice::Dice;
use crate::tests::ends::Notes;
use crate::tests::peers::{FLIGHT, Peer, TWO_SEATS};
use crate::tests::schedule::Schedule;
use http_conversations::serve;
use http_live::{Ending, Turns, empty_slots, finish_many, serve_many};
use memory_book::MemBook;
use recovery::{Ready, recover};
use std::alloc::Global;
use std::cell::RefCell;
use std::process::Abort;

/// Who asks.
const AGENTS: [&str; 4] = ["ann", "bob", "cy", "dee"];

/// A new desk in memory, recovered.
pub fn new_desk(rt: &impl Abort, alloc: Global) -> Ready<MemBook> {
    match recover(MemBook::new(alloc)) {
        Ok((desk, _)) => desk,
        Err((_, fault)) => panic!(rt; "{fault:?}"),
    }
}

/// What is asked, and with which body. The pages of most of these depend on what others did before.
#[rattlefmt::skip]
const ASKED: [(&str, &str); 8] = [
    ("POST /journeys",           FLIGHT),
    ("POST /batches/b1",         TWO_SEATS),
    ("POST /journeys/1/step",    ""),
    ("POST /journeys/2/step",    ""),
    ("POST /journeys/1/abort/0", ""),
    ("GET /unfinished",          ""),
    ("GET /journeys/1",          ""),
    ("GET /stock",               ""),
];

/// What is asked at this place of the list, and with which body.
fn request_at(at: usize) -> (&'static str, &'static str) {
    match ASKED.get(at) {
        Some(request) => *request,
        None => ("GET /stock", ""),
    }
}

/// Peers that each send some of these requests, under keys of their own. One of them asks to close within.
fn random_peers(rt: &impl Abort, alloc: Global, dice: &mut Dice) -> Vec<Peer> {
    let mut peers = Vec::new(alloc);
    for agent in AGENTS {
        let mut peer = Peer::new(alloc);
        for i in 0..10u64 {
            let at = if i == 0 { 0 } else { dice.roll(8) as usize };
            let (asked, body) = request_at(at);
            let key = i.to_string(alloc).expect(rt, "memory");
            let close = if agent == "cy" && i == 6 {
                "\r\nConnection: close"
            } else {
                ""
            };
            let head = [
                asked,
                " HTTP/1.1\r\nDesk-Agent: ",
                agent,
                "\r\nDesk-Key: k",
                &key,
                close,
            ];
            peer.ask(rt, alloc, &head, body);
        }
        peers.push(peer).expect(rt, "memory");
    }
    peers
}

/// What was written to each peer, and the slots in the order in which their messages were answered.
#[derive(Drop)]
pub struct Run {
    pub written: Vec<Vec<u8>>,
    pub order: Vec<usize>,
    /// How serving ended.
    pub ending: Ending,
}

/// The turns of a schedule are served by a desk, on slots of their own.
pub fn serve_all<T: Turns>(
    rt: &impl Abort,
    alloc: Global,
    turns: &mut T,
    desk: &mut Ready<MemBook>,
) -> Ending {
    let mut slots = empty_slots(alloc).expect(rt, "memory");
    let ended = serve_many(alloc, slots.as_mut_slice(), turns, desk);
    let ending = ended.expect(rt, "memory");
    finish_many(slots.as_mut_slice(), turns);
    ending
}

/// The peers are served by a desk.
pub fn served(
    rt: &impl Abort,
    alloc: Global,
    desk: &mut Ready<MemBook>,
    peers: &[Peer],
    seed: u64,
    is_fair: bool,
) -> Run {
    let mut written = Vec::new(alloc);
    for _ in peers {
        written.push(Vec::new(alloc)).expect(rt, "memory");
    }
    let notes: Notes = RefCell::new(written);
    let mut schedule = Schedule {
        peers,
        notes: &notes,
        dice: Dice::new(seed),
        is_fair,
        came: 0,
        left: 6000,
        order: Vec::new(alloc),
    };
    let ending = serve_all(rt, alloc, &mut schedule, desk);
    let Schedule { order, .. } = schedule;
    Run {
        written: notes.into_inner(),
        order,
        ending,
    }
}

/// The pages that a plain desk gives to the requests, answered in this order, for each peer; and the desk after them.
pub fn plainly(
    rt: &impl Abort,
    alloc: Global,
    peers: &[Peer],
    order: &[usize],
) -> (Vec<Vec<u8>>, Ready<MemBook>) {
    let mut desk = new_desk(rt, alloc);
    let mut asked = Vec::new(alloc);
    let mut pages = Vec::new(alloc);
    for _ in peers {
        asked.push(0usize).expect(rt, "memory");
        pages.push(Vec::new(alloc)).expect(rt, "memory");
    }
    for at in order {
        let count = asked.get_mut(*at).expect(rt, "a slot");
        let peer = peers.get(*at).expect(rt, "a peer");
        let mut request = peer.requests.get(*count).expect(rt, "a request").as_slice();
        *count = count.saturating_add(1);
        let writer = pages.get_mut(*at).expect(rt, "a slot");
        let ended = serve(alloc, &mut request, writer, &mut desk);
        assert!(rt; ended.is_ok(), "{ended:?}");
    }
    (pages, desk)
}

#[test]
fn pages_are_those_of_the_requests_one_after_another(rt: HostRuntime) {
    let alloc = rt.alloc();
    for seed in 1..6 {
        let mut dice = Dice::new(seed);
        let peers = random_peers(&rt, alloc, &mut dice);
        let mut desk = new_desk(&rt, alloc);
        let run = served(&rt, alloc, &mut desk, peers.as_slice(), seed, false);
        let (pages, _) = plainly(&rt, alloc, peers.as_slice(), run.order.as_slice());
        assert!(rt; run.order.len() == 37, "{seed}: {}", run.order.len());
        assert!(rt; run.written == pages, "{seed}");
    }
}

#[test]
fn nobody_waits_for_a_hundred_requests_of_another(rt: HostRuntime) {
    let alloc = rt.alloc();
    let mut peers = Vec::new(alloc);
    for count in [100, 1] {
        let mut peer = Peer::new(alloc);
        for _ in 0..count {
            peer.ask(
                &rt,
                alloc,
                &["GET /unfinished HTTP/1.1\r\nDesk-Agent: ann"],
                "",
            );
        }
        peer.read_step = 8_000;
        peers.push(peer).expect(&rt, "memory");
    }
    let mut desk = new_desk(&rt, alloc);
    let run = served(&rt, alloc, &mut desk, peers.as_slice(), 1, true);
    let at = run.order.iter().position(|slot| *slot == 1);
    assert!(rt; run.order.len() == 101 && at.unwrap_or(101) < 10, "{at:?}");
}
