//! The lines of the log.
ghost use Rattle.std.specs.Prelude.{◌≡◌, IfOk, IsTrue};
ghost use Rattle.std.specs.String.{string_bytes};
ghost use Rattle.std.specs.List.{list_all};
ghost use Rattle.commands.specs.Texts.{sentence};
ghost use Rattle.http_log.specs.Lines.{door_word, ended_text, opened_text, page_words, request_text, request_words};
ghost use Rattle.http_log.specs.Shown.{is_printable};

use crate::endings::Why;
use crate::escaping::shown;
use std::alloc::{AllocError, Global};

/// How many bytes of a name or a key are shown.
const MOST_NAME: usize = 32;

/// How many bytes of a target are shown.
const MOST_TARGET: usize = 128;

/// A connection.
#[derive(Clone, Copy, Debug, PartialEq, Eq)]
pub struct Peer {
    /// Its number, in the order in which they came, from 1 on.
    pub number: u64,
    /// Whether it came by the administrator's socket.
    pub is_house: bool,
}

/// A request, and its page.
#[derive(Clone, Copy, Debug)]
pub struct Asked<'a> {
    /// The agent, if the request has a good one, else nothing.
    pub agent: &'a [u8],
    /// The method and the target as they were sent; nothing where there was no head.
    pub method: &'a [u8],
    pub target: &'a [u8],
    /// The status of the page, or a word where it was lost.
    pub status: &'a [u8],
    /// The key, if the request has a good one, else nothing.
    pub key: &'a [u8],
    /// Whether the page was a kept one.
    pub again: bool,
    /// The number of the refusal in digits, if it was refused, else nothing.
    pub refused: &'a [u8],
    /// How many milliseconds it took.
    pub millis: u64,
}

/// The line of a request, without an end of line. The only fault is out of memory.
#[tactic(auto, using(crate::proofs::PrintableLemmas::request_prints, crate::proofs::PrintableLemmas::asked_in_two))]
pub fn request_line(alloc: Global, peer: Peer, asked: &Asked<'_>) -> Result<String, AllocError>
    ensures line { IfOk result (λ line. string_bytes line ≡ request_text peer asked.now) }
    ensures printable { IfOk result (λ line. IsTrue (list_all is_printable (string_bytes line))) }
{
    let (number, door) = (peer.number, door_word(peer.is_house));
    let request = request_part(alloc, asked)?;
    let page = page_part(alloc, asked)?;
    format!(in alloc; "request connection={number} door={door} {request} {page}")
}

/// What was asked. The only fault is out of memory.
#[tactic(auto, using(crate::proofs::PrintableLemmas::request_part_prints))]
fn request_part(alloc: Global, asked: &Asked<'_>) -> Result<String, AllocError>
    ensures text { IfOk result (λ text. string_bytes text ≡ sentence (request_words asked.now)) }
    ensures printable { IfOk result (λ text. IsTrue (list_all is_printable (string_bytes text))) }
{
    let agent = shown(alloc, asked.agent, MOST_NAME)?;
    let method = shown(alloc, asked.method, MOST_NAME)?;
    let target = shown(alloc, asked.target, MOST_TARGET)?;
    format!(in alloc; "agent={agent} method={method} target={target}")
}

/// How it was answered. The only fault is out of memory.
#[tactic(auto, using(crate::proofs::PrintableLemmas::page_part_prints))]
fn page_part(alloc: Global, asked: &Asked<'_>) -> Result<String, AllocError>
    ensures text { IfOk result (λ text. string_bytes text ≡ sentence (page_words asked.now)) }
    ensures printable { IfOk result (λ text. IsTrue (list_all is_printable (string_bytes text))) }
{
    let status = shown(alloc, asked.status, MOST_NAME)?;
    let key = shown(alloc, asked.key, MOST_NAME)?;
    let again = if asked.again { "yes" } else { "no" };
    let millis = asked.millis;
    let refused = shown(alloc, asked.refused, MOST_NAME)?;
    format!(in alloc; "status={status} key={key} again={again} refused={refused} ms={millis}")
}

/// The line of a connection that ended, after so many requests. The only fault is out of memory.
#[tactic(auto, using(crate::proofs::PrintableLemmas::ended_prints))]
pub fn ended_line(alloc: Global, peer: Peer, requests: u64, why: Why) -> Result<String, AllocError>
    ensures line { IfOk result (λ line. string_bytes line ≡ ended_text peer requests why) }
    ensures printable { IfOk result (λ line. IsTrue (list_all is_printable (string_bytes line))) }
{
    let (number, door, word) = (peer.number, door_word(peer.is_house), why.word());
    format!(in alloc; "ended connection={number} door={door} requests={requests} why={word}")
}

/// The line of an opening that recovered so many events. The only fault is out of memory.
#[tactic(auto, using(crate::proofs::PrintableLemmas::opened_prints))]
pub fn opened_line(alloc: Global, recovered: u64) -> Result<String, AllocError>
    ensures line { IfOk result (λ line. string_bytes line ≡ opened_text recovered) }
    ensures printable { IfOk result (λ line. IsTrue (list_all is_printable (string_bytes line))) }
{
    format!(in alloc; "opened recovered={recovered}")
}

/// The word of a door.
fn door_word(is_house: bool) -> &'static str
    ensures word { result.now ≡ door_word is_house }
{
    if is_house { "house" } else { "port" }
}
