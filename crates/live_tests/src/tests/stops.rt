//! A stop: the house asks for it at its own door, and nobody else can.
use crate::tests::peers::Peer;
use crate::tests::plain::{new_desk, served};
use desk_http::Door;
use http_live::Ending;

/// What one who may not stop the desk is told.
const UNKNOWN: &[u8] =
    b"HTTP/1.1 404 Not Found\r\nContent-Length: 34\r\nContent-Type: application/json\r\n\r\n{\"name\":\"UnknownPath\",\"refused\":7}";

/// What the house is told.
const STOPPING: &[u8] =
    b"HTTP/1.1 200 OK\r\nContent-Length: 20\r\nContent-Type: application/json\r\n\r\n{\"state\":\"stopping\"}";

const ANN: &str = "\r\nDesk-Agent: ann\r\nDesk-Key: k1";

// the door, who asks there, and how serving ends
#[rattlefmt::skip]
const ASKED: [(Door, &str, Ending); 4] = [
    (Door::House, "",  Ending::Stopped),
    (Door::House, ANN, Ending::NoTurn),
    (Door::Port,  "",  Ending::NoTurn),
    (Door::Port,  ANN, Ending::NoTurn),
];

#[test]
fn only_the_house_stops_the_desk(rt: HostRuntime) {
    let alloc = rt.alloc();
    for (door, agent, ending) in ASKED {
        for seed in 1..4 {
            let mut peers = Vec::new(alloc);
            let mut peer = Peer::new(alloc);
            peer.door = door;
            // what follows the stop is not answered any more
            for _ in 0..2 {
                peer.ask(&rt, alloc, &["POST /stop HTTP/1.1", agent], "");
            }
            peers.push(peer).expect(&rt, "memory");
            let mut desk = new_desk(&rt, alloc);
            let run = served(&rt, alloc, &mut desk, peers.as_slice(), seed, false);
            assert!(rt; run.ending == ending, "{door:?} {seed}");
            let page = if ending == Ending::Stopped {
                STOPPING
            } else {
                UNKNOWN
            };
            let count = if ending == Ending::Stopped { 1 } else { 2 };
            let mut pages = Vec::new(alloc);
            for _ in 0..count {
                pages.extend_from_slice(page).expect(&rt, "memory");
            }
            let written = run.written.first().expect(&rt, "a slot");
            assert!(rt; *written == pages, "{door:?} {seed}");
        }
    }
}
