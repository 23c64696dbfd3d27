//! What the log knows of a slot.
ghost use Rattle.std.specs.Prelude.{◌≡◌, ◌/◌, IfOk, IsTrue, false, option_map};
ghost use Rattle.std.specs.List.{list_all};
ghost use Rattle.std.specs.String.{string_bytes};
ghost use Rattle.http_log.specs.Shown.{is_printable};

use crate::clocks::micros_between;
use http_log::{Peer, Why, ended_line};
use std::alloc::{AllocError, Global};
use std::time::Instant;

/// A line of printable ASCII alone, so that one line is one record.
#[derive(Drop)]
pub(crate) struct Line {
    pub(crate) text: String,
    ghost printable: { IsTrue (list_all is_printable (string_bytes text)) },
}

/// What the log knows of a slot.
#[derive(Drop)]
pub struct Known {
    /// Whether a connection is here.
    pub(crate) is_here: bool,
    pub(crate) peer: Peer,
    /// How many requests were answered, or lost their pages.
    pub(crate) requests: u64,
    /// Whether a message, or part of one, was received before its turn.
    pub(crate) has_part: bool,
    /// How many bytes were left of its page after its last turn.
    pub(crate) unsent: usize,
    /// Whether its last page closes.
    pub(crate) closes: bool,
    /// When it was read last, if the clock was.
    pub(crate) read_at: Option<Instant>,
}

impl Known {
    ghost use Rattle.http_live.specs.Ends.{end_line, why_of};
    ghost use Rattle.http_live.specs.Seen.{micros_between, with_rest};

    /// A connection, of which nothing was received, is here, or nobody is.
    pub(crate) fn new(is_here: bool, peer: Peer) -> Known
        ensures known { result ≡ record {
          is_here = is_here;
          peer = peer;
          requests = 0;
          has_part = false;
          unsent = 0;
          closes = false;
          read_at = None;
        } }
    {
        Known {
            is_here,
            peer,
            requests: 0,
            has_part: false,
            unsent: 0,
            closes: false,
            read_at: None,
        }
    }

    /// A turn ended at this time, after which so many bytes are left of its page. In one that was busy, and sent nothing, it was
    /// read.
    pub(crate) fn goes_on(&mut self, is_busy: bool, unsent: usize, now: Option<Instant>)
        ensures rest { self.new ≡ with_rest is_busy unsent now self.old }
    {
        if is_busy && unsent == self.unsent {
            self.read_at = now;
        }
        self.unsent = unsent;
    }

    /// How many milliseconds it is since it was read; 0 where the clock was not.
    pub(crate) fn millis_since_read(&self, now: Option<Instant>) -> u64
        ensures millis { result ≡ micros_between self.now.read_at now / 1_000 }
    {
        micros_between(self.read_at, now) / 1000
    }

    /// The connection ended so. Returns its line, if one was here. The only fault is out of memory.
    pub(crate) fn end(&mut self, alloc: Global, why: Why) -> Result<Option<Line>, AllocError>
        ensures line { IfOk result (λ line.
            option_map (λ line. string_bytes line.text) line ≡ end_line self.old why) }
        ensures gone { self.new ≡ record self.old { is_here = false } }
    {
        if !self.is_here {
            return Ok(None);
        }
        self.is_here = false;
        let text = ended_line(alloc, self.peer, self.requests, why)?;
        Ok(Some(Line { text }))
    }

    /// Why the connection ended in its turn, in which a page was lost, or was not.
    pub(crate) fn why(&self, is_lost: bool) -> Why
        ensures why { result ≡ why_of is_lost self.now }
    {
        if is_lost {
            Why::Memory
        } else if self.unsent > 0 {
            Why::NotTaken
        } else if self.closes {
            Why::Closed
        } else if self.has_part {
            Why::CutOff
        } else {
            Why::Left
        }
    }
}
