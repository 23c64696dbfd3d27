//! The bytes that are sent over a connection, the pages that are expected, and the checks of a desk on them.
use crate::tests::desks::{holds, is_as_new, new_desk, reads};
use failing_streams::{Pieces, Sink};
use http_conversations::serve;
use memory_book::MemBook;
use recovery::Ready;
use std::alloc::Global;
use std::process::Abort;

/// More bytes than any test writes.
pub const ROOM: usize = 4000;

/// More bytes than any test reads.
pub const ALL: usize = 1_000_000;

// in one piece, and byte by byte
pub const STEPS: [usize; 2] = [ALL, 1];

/// A page in JSON: its status, the fields that only some pages have, the length that it gives for its body, and the
/// body that is sent.
pub type Page = (&'static str, &'static str, usize, &'static str);

/// A request: its method and target, its agent, its key if there is one, its body, and its page.
pub type Asked = (&'static str, &'static str, &'static str, &'static str, Page);

/// The bytes that are sent over a connection, and the pages that are expected.
#[derive(Drop)]
pub struct Talk {
    pub sent: Vec<u8>,
    pub told: Vec<u8>,
    /// After each request that gets a page: the number of bytes sent, and the number of bytes expected.
    ends: Vec<(usize, usize)>,
}

/// Appends these texts, one after another.
pub fn put(rt: &impl Abort, text: &mut Vec<u8>, parts: &[&str]) {
    for part in parts {
        text.extend_from_slice(part.as_bytes()).expect(rt, "memory");
    }
}

impl Talk {
    pub fn new(alloc: Global) -> Talk {
        Talk {
            sent: Vec::new(alloc),
            told: Vec::new(alloc),
            ends: Vec::new(alloc),
        }
    }

    /// Sends these bytes.
    pub fn send(&mut self, rt: &impl Abort, bytes: &[u8]) {
        self.sent.extend_from_slice(bytes).expect(rt, "memory");
    }

    /// Sends a request. A POST gives the length of its body.
    pub fn ask(
        &mut self,
        rt: &impl Abort,
        alloc: Global,
        asked: &str,
        agent: &str,
        key: &str,
        body: &[u8],
    ) {
        let front = [asked, " HTTP/1.1\r\nHost: d\r\nDesk-Agent: ", agent, "\r\n"];
        put(rt, &mut self.sent, &front);
        if !key.is_empty() {
            put(rt, &mut self.sent, &["Desk-Key: ", key, "\r\n"]);
        }
        if asked.starts_with("POST") {
            let length = body.len().to_string(alloc).expect(rt, "memory");
            put(rt, &mut self.sent, &["Content-Length: ", &length, "\r\n"]);
        }
        put(rt, &mut self.sent, &["\r\n"]);
        self.send(rt, body);
    }

    /// Expects these texts after the bytes sent so far.
    pub fn tell(&mut self, rt: &impl Abort, parts: &[&str]) {
        put(rt, &mut self.told, parts);
        let end = (self.sent.len(), self.told.len());
        self.ends.push(end).expect(rt, "memory");
    }

    /// Expects this page after the bytes sent so far.
    pub fn page(&mut self, rt: &impl Abort, alloc: Global, page: Page) {
        let (status, fields, length, body) = page;
        let length = length.to_string(alloc).expect(rt, "memory");
        self.tell(
            rt,
            &[
                "HTTP/1.1 ",
                status,
                "\r\nContent-Length: ",
                &length,
                "\r\nContent-Type: application/json\r\n",
                fields,
                "\r\n",
                body,
            ],
        );
    }

    /// Sends these requests, and expects their pages.
    pub fn go_on(&mut self, rt: &impl Abort, alloc: Global, rows: &[Asked]) {
        for &(asked, agent, key, body, page) in rows {
            self.ask(rt, alloc, asked, agent, key, body.as_bytes());
            self.page(rt, alloc, page);
        }
    }

    /// The pages that are expected after only so many bytes were sent.
    pub fn told_by(&self, rt: &impl Abort, read: usize) -> &[u8] {
        let mut end = 0;
        for &(sent, told) in &self.ends {
            if sent <= read {
                end = told;
            }
        }
        self.told.get(..end).expect(rt, "a front")
    }
}

/// Sends so many bytes of a talk to a desk, so many at a time, and checks its answers.
pub fn is_served(
    rt: &impl Abort,
    alloc: Global,
    case: &str,
    talk: &Talk,
    desk: &mut Ready<MemBook>,
    read: usize,
    step: usize,
) {
    let mut sink = Sink::new(alloc, step, ROOM).expect(rt, "memory");
    let sent = talk.sent.get(..read).expect(rt, "a front");
    let served = serve(alloc, &mut Pieces::of(sent, step), &mut sink, desk);
    let served = served.expect(rt, case);
    reads(rt, case, sink.taken(), talk.told_by(rt, read));
    let pages = talk.ends.iter().filter(|end| end.0 <= read).count();
    holds(rt, case, served.pages == pages as u64);
}

/// Sends a whole talk to a desk, in one piece, and checks its answers.
pub fn goes_on(rt: &impl Abort, alloc: Global, case: &str, talk: &Talk, desk: &mut Ready<MemBook>) {
    is_served(rt, alloc, case, talk, desk, talk.sent.len(), ALL);
}

/// Sends a whole talk to a new desk in one piece, and to another byte by byte, and checks their answers.
pub fn is_answered(rt: &impl Abort, alloc: Global, case: &str, talk: &Talk) {
    for &step in &STEPS {
        let mut desk = new_desk(rt, alloc);
        is_served(rt, alloc, case, talk, &mut desk, talk.sent.len(), step);
    }
}

/// Sends so many bytes of a talk to a new desk, and checks its answers.
pub fn cut(rt: &impl Abort, alloc: Global, case: &str, talk: &Talk, read: usize) -> Ready<MemBook> {
    let mut desk = new_desk(rt, alloc);
    is_served(rt, alloc, case, talk, &mut desk, read, ALL);
    desk
}

/// Sends each proper prefix of a talk to a new desk, and checks its answers.
pub fn is_answered_when_cut(rt: &impl Abort, alloc: Global, case: &str, talk: &Talk) {
    for read in 0..talk.sent.len() {
        cut(rt, alloc, case, talk, read);
    }
}

/// Sends each proper prefix of a talk to a new desk, and checks that nothing changes.
pub fn does_nothing_when_cut(rt: &impl Abort, alloc: Global, case: &str, talk: &Talk) {
    for read in 0..talk.sent.len() {
        let mut desk = cut(rt, alloc, case, talk, read);
        is_as_new(rt, case, &mut desk);
    }
}
