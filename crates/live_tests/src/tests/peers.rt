//! Peers, with what each of them sends.
use desk_http::Door;
use std::alloc::Global;
use std::process::Abort;

/// A plan of one flight.
pub const FLIGHT: &str =
    r#"{"steps":[{"options":[{"kind":"flight","supplier":"AL","product":"A1","first":"2030-06-01","nights":1,"count":1}],"save":false}],"tries":0}"#;

/// Two seats of that flight.
pub const TWO_SEATS: &str = "kind,supplier,product,night,places\nflight,AL,A1,2030-06-01,2\n";

/// More than a peer is sent.
pub const ROOM: usize = 1_000_000;

/// A peer, with what it sends and how.
#[derive(Drop)]
pub struct Peer {
    pub door: Door,
    pub requests: Vec<Vec<u8>>,
    /// The requests, one after another.
    pub sent: Vec<u8>,
    /// How many bytes a read gives, at most.
    pub read_step: u64,
    /// Whether reading fails after the last byte.
    pub fails: bool,
    /// How many bytes it takes.
    pub room: usize,
    /// How many bytes a write takes, at most.
    pub write_step: u64,
}

impl Peer {
    /// It sends nothing yet, and takes everything.
    pub fn new(alloc: Global) -> Peer {
        Peer {
            door: Door::Port,
            requests: Vec::new(alloc),
            sent: Vec::new(alloc),
            read_step: 300,
            fails: false,
            room: ROOM,
            write_step: 200,
        }
    }

    /// It sends this request. A body is sent with its length.
    pub fn ask(&mut self, rt: &impl Abort, alloc: Global, head: &[&str], body: &str) {
        let mut request = Vec::new(alloc);
        for part in head {
            put(rt, &mut request, part);
        }
        let length = body.len().to_string(alloc).expect(rt, "memory");
        for part in ["\r\nHost: d\r\nContent-Length: ", &length, "\r\n\r\n", body] {
            put(rt, &mut request, part);
        }
        self.sent.extend_from_slice(&request).expect(rt, "memory");
        self.requests.push(request).expect(rt, "memory");
    }
}

/// Appends a text.
fn put(rt: &impl Abort, bytes: &mut Vec<u8>, text: &str) {
    bytes
        .extend_from_slice(text.as_bytes())
        .expect(rt, "memory");
}
