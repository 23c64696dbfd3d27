//! Thousands of random orders of readiness, cuts and faults, each beside the plain program.
use crate::tests::crowd::{Crowd, Fate};
use crate::tests::dice::Dice;
use crate::tests::ends::Notes;
use crate::tests::peers::{FLIGHT, Peer, ROOM, TWO_SEATS};
use crate::tests::plain::{Run, new_desk, plainly, serve_all};
use http_conversations::serve;
use memory_book::MemBook;
use recovery::Ready;
use std::alloc::Global;
use std::cell::RefCell;
use std::process::Abort;

/// How many orders are tried.
const ORDERS: u64 = 2000;

/// How many turns an order has.
const TURNS: u64 = 400;

/// Who asks. Peers of one name have one agent, whose keys are the same.
const AGENTS: [&str; 4] = ["ann", "bob", "ann", "cy"];

/// What is asked, and with which body.
#[rattlefmt::skip]
const ASKED: [(&str, &str); 7] = [
    ("POST /journeys",           FLIGHT),
    ("POST /batches/b1",         TWO_SEATS),
    ("POST /journeys/1/step",    ""),
    ("POST /journeys/2/step",    ""),
    ("POST /journeys/1/abort/0", ""),
    ("GET /unfinished",          ""),
    ("GET /stock",               ""),
];

/// What is asked at this place of the list, and with which body.
fn request_at(at: usize) -> (&'static str, &'static str) {
    match ASKED.get(at) {
        Some(request) => *request,
        None => ("GET /stock", ""),
    }
}

/// What the orders came to.
#[derive(Clone, Copy)]
struct Tally {
    answered: u64,
    whole: u64,
    cut: u64,
    faults: u64,
}

/// A peer that sends one to four of these requests, one of which may close.
fn asking_peer(rt: &impl Abort, alloc: Global, dice: &mut Dice, agent: &str) -> Peer {
    let mut peer = Peer::new(alloc);
    for i in 0..dice.roll(4).saturating_add(1) {
        let (asked, body) = request_at(dice.roll(7) as usize);
        let close = if dice.roll(12) == 0 {
            "\r\nConnection: close"
        } else {
            ""
        };
        let head = format!(in alloc;
            "{asked} HTTP/1.1\r\nDesk-Agent: {agent}\r\nDesk-Key: k{i}{close}"
        );
        let head = head.expect(rt, "memory");
        peer.ask(rt, alloc, &[head.as_str()], body);
    }
    peer
}

/// A peer as before, which may be cut off within a request, fail, or take only a part of its pages.
fn random_peer(rt: &impl Abort, alloc: Global, dice: &mut Dice, agent: &str) -> Peer {
    let mut peer = asking_peer(rt, alloc, dice, agent);
    peer.read_step = dice.roll(400).saturating_add(1);
    peer.write_step = dice.roll(200).saturating_add(1);
    if dice.roll(4) == 0 {
        let most = peer.sent.len() as u64;
        peer.sent.truncate(dice.roll(most) as usize);
    }
    peer.fails = dice.roll(4) == 0;
    if dice.roll(4) == 0 {
        peer.room = dice.roll(300) as usize;
    }
    peer
}

/// The peers of an order.
fn random_peers(rt: &impl Abort, alloc: Global, dice: &mut Dice) -> Vec<Peer> {
    let mut peers = Vec::new(alloc);
    for agent in AGENTS {
        let peer = random_peer(rt, alloc, dice, agent);
        peers.push(peer).expect(rt, "memory");
    }
    peers
}

/// The peers are served in a random order by a desk. Returns what was written to each, and how each fared.
fn served_in_order(
    rt: &impl Abort,
    alloc: Global,
    desk: &mut Ready<MemBook>,
    peers: &[Peer],
    seed: u64,
) -> (Run, Vec<Fate>) {
    let mut written = Vec::new(alloc);
    let mut fates = Vec::new(alloc);
    for _ in peers {
        written.push(Vec::new(alloc)).expect(rt, "memory");
        fates.push(Fate::Open).expect(rt, "memory");
    }
    let notes: Notes = RefCell::new(written);
    let mut crowd = Crowd {
        peers,
        notes: &notes,
        dice: Dice::new(seed),
        slotted: [None, None, None],
        came: 0,
        left: TURNS,
        order: Vec::new(alloc),
        fates,
    };
    let ending = serve_all(rt, alloc, &mut crowd, desk);
    let Crowd { order, fates, .. } = crowd;
    let run = Run {
        written: notes.into_inner(),
        order,
        ending,
    };
    (run, fates)
}

/// How many requests of a peer came whole, up to the first that closes.
fn whole_requests(peer: &Peer) -> usize {
    let (mut count, mut length) = (0usize, 0usize);
    for request in &peer.requests {
        length = length.saturating_add(request.len());
        if length > peer.sent.len() {
            return count;
        }
        count = count.saturating_add(1);
        if has_close(request) {
            return count;
        }
    }
    count
}

/// Whether a request asks to close.
fn has_close(request: &[u8]) -> bool {
    request.windows(5).any(|word| word == b"close".as_slice())
}

/// What a desk shows of its stock and of what is unfinished.
fn shown(rt: &impl Abort, alloc: Global, desk: &mut Ready<MemBook>) -> Vec<u8> {
    let mut pages = Vec::new(alloc);
    for agent in ["ann", "bob", "cy"] {
        for asked in ["GET /stock", "GET /unfinished", "GET /journeys/1"] {
            let mut peer = Peer::new(alloc);
            peer.ask(rt, alloc, &[asked, " HTTP/1.1\r\nDesk-Agent: ", agent], "");
            let mut reader = peer.sent.as_slice();
            let ended = serve(alloc, &mut reader, &mut pages, desk);
            assert!(rt; ended.is_ok(), "{ended:?}");
        }
    }
    pages
}

/// What one peer was sent is a beginning of its pages, and all of them where nothing went wrong.
fn look_at(
    rt: &impl Abort,
    peer: &Peer,
    found: &[u8],
    pages: &[u8],
    count: usize,
    fate: Fate,
) -> bool {
    assert!(rt; pages.starts_with(found));
    let is_whole = fate == Fate::Over && !peer.fails && peer.room == ROOM;
    if is_whole {
        assert!(rt; found == pages);
        assert!(rt; count == whole_requests(peer), "{count}");
    }
    is_whole
}

/// One order, which is added to the tally.
fn try_order(rt: &impl Abort, alloc: Global, seed: u64, tally: &mut Tally) {
    let mut dice = Dice::new(seed);
    let peers = random_peers(rt, alloc, &mut dice);
    let mut desk = new_desk(rt, alloc);
    let (run, fates) = served_in_order(rt, alloc, &mut desk, peers.as_slice(), seed);
    let (pages, mut plain) = plainly(rt, alloc, peers.as_slice(), run.order.as_slice());
    tally.answered = tally.answered.saturating_add(run.order.len() as u64);
    for (at, peer) in peers.iter().enumerate() {
        let found = run.written.get(at).expect(rt, "a peer");
        let expected = pages.get(at).expect(rt, "a peer");
        let fate = *fates.get(at).expect(rt, "a peer");
        let count = run.order.iter().filter(|other| **other == at).count();
        let is_whole = look_at(rt, peer, found, expected, count, fate);
        tally.whole = tally.whole.saturating_add(u64::from(is_whole));
        tally.cut = tally.cut.saturating_add(u64::from(fate == Fate::Cut));
        tally.faults = tally
            .faults
            .saturating_add(u64::from(peer.fails || peer.room != ROOM));
    }
    assert!(rt;
        shown(rt, alloc, &mut desk) == shown(rt, alloc, &mut plain),
        "{seed}"
    );
}

#[test]
fn each_order_is_that_of_the_plain_program(rt: HostRuntime) {
    let alloc = rt.alloc();
    let mut tally = Tally {
        answered: 0,
        whole: 0,
        cut: 0,
        faults: 0,
    };
    for seed in 1..ORDERS + 1 {
        try_order(&rt, alloc, seed, &mut tally);
    }
    let Tally {
        answered,
        whole,
        cut,
        faults,
    } = tally;
    assert!(rt;
        answered > ORDERS && whole > ORDERS / 2 && cut > ORDERS / 2 && faults > ORDERS,
        "{answered} answered, {whole} whole, {cut} cut off, {faults} with faults"
    );
}
