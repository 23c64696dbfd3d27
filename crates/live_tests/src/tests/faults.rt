//! Readers and writers that fail: each ends its own connection, and every other peer gets all its pages.
use crate::tests::peers::{Peer, ROOM};
use crate::tests::plain::{new_desk, served};
use http_conversations::serve;
use std::alloc::Global;
use std::process::Abort;

// whether reading fails in the end, how many of its bytes a peer sends, and how many it takes
#[rattlefmt::skip]
const PEERS: [(bool, usize, usize); 5] = [
    (false, ROOM, ROOM),
    (true,  ROOM, ROOM),
    (false, 200,  ROOM),
    (false, ROOM, 100),
    (false, ROOM, 0),
];

/// What a peer asks. The pages do not depend on what others do.
fn asks(rt: &impl Abort, alloc: Global, peer: &mut Peer) {
    for asked in [
        "GET /unfinished",
        "GET /journeys/7",
        "POST /journeys",
        "PUT /stock",
        "GET /none",
    ] {
        let head = [asked, " HTTP/1.1\r\nDesk-Agent: ann\r\nDesk-Key: k1"];
        peer.ask(rt, alloc, &head, "no plan");
    }
}

/// The pages of a peer that is alone.
fn alone(rt: &impl Abort, alloc: Global, peer: &Peer) -> Vec<u8> {
    let mut desk = new_desk(rt, alloc);
    let mut pages = Vec::new(alloc);
    let mut reader = peer.sent.as_slice();
    let ended = serve(alloc, &mut reader, &mut pages, &mut desk);
    assert!(rt; ended.is_ok(), "{ended:?}");
    pages
}

fn with_faults(rt: &impl Abort, alloc: Global) -> Vec<Peer> {
    let mut peers = Vec::new(alloc);
    for (fails, sent, room) in PEERS {
        let mut peer = Peer::new(alloc);
        asks(rt, alloc, &mut peer);
        peer.sent.truncate(sent);
        peer.fails = fails;
        peer.room = room;
        peer.write_step = 50;
        peer.read_step = 40;
        peers.push(peer).expect(rt, "memory");
    }
    peers
}

#[test]
fn a_fault_ends_one_connection(rt: HostRuntime) {
    let alloc = rt.alloc();
    for seed in 1..6 {
        let peers = with_faults(&rt, alloc);
        let mut desk = new_desk(&rt, alloc);
        let run = served(&rt, alloc, &mut desk, peers.as_slice(), seed, false);
        for (peer, found) in peers.iter().zip(&run.written) {
            let pages = alone(&rt, alloc, peer);
            assert!(rt; pages.starts_with(found), "{seed}");
            let is_whole = found.len() == pages.len().min(peer.room);
            assert!(rt; is_whole || peer.fails, "{seed}");
        }
    }
}
