//! The head of a request and its fields by name, as places in its bytes.

ghost use Rattle.allotment.specs.Texts.{keep_if};
ghost use Rattle.commands.specs.Names.{is_agent, is_key};
ghost use Rattle.http_messages.specs.Fields.{IsFoundBefore, parts_at};
ghost use Rattle.http_messages.specs.Heads.{Parts, is_alike};
ghost use Rattle.httparse.specs.Spans.{IsRequestWithin};
ghost use Rattle.std.specs.Prelude.{◌≡◌, ◌∷◌, ℕ, List};

use crate::requests::{Length, Request, length_in};
use commands::{Agent, Key, MOST_BYTES, Refusal};
use httparse::spans::{EMPTY_HEADER_SPAN, HeaderSpan, RequestSpans, parse_request};
use httparse::{Error, Status};
use std::alloc::{AllocError, Global};
use std::marker::Model;

/// How many fields a head may have.
pub(crate) const MOST_FIELDS: usize = 32;

/// A head, by the bytes in which it lies and the places of its parts.
#[derive(Drop)]
pub(crate) struct Head<'a> {
    pub(crate) front: &'a [u8],
    pub(crate) line: RequestSpans,
    pub(crate) fields: [HeaderSpan; MOST_FIELDS],
}

impl<'a> Model for Head<'a> {
    ghost Value = { Parts };

    ghost view = { λ head. parts_at head.front.now head.fields head.line };

    ghost invariant = { λ head. IsRequestWithin head.front.now head.fields head.line };
}

/// Why a decided prefix is no head.
#[derive(Clone, Copy)]
pub(crate) enum NotHead {
    /// It has too many fields.
    TooManyFields,
    /// It would be none if it had fewer fields either.
    Other,
}

impl<'a> Head<'a> {
    ghost use Rattle.std.specs.Prelude.{◌≡◌, length, IfErr, IfOk};
    ghost use Rattle.http_messages.specs.Heads.{values_named, asks_to_close, agent_of, host_of, is_unnamed, key_of, lengths};
    ghost use Rattle.http_messages.specs.Heads.{is_meant, meant_agents, named_agent};
    ghost use Rattle.http_messages.specs.Heads.{is_plain, is_method, complaint_of, body_length};
    ghost use Rattle.http_messages.specs.Places.{IsToldAt};
    ghost use Rattle.http_messages.specs.Fields.{IsFound, IsHeadWith, IsNoHeadFor, Tells};
    ghost use Rattle.http_messages.specs.Requests.{IsRequest};

    /// Reads the head that a decided prefix is.
    pub(crate) fn read(front: &'a [u8]) -> Result<Head<'a>, NotHead>
        requires { IsToldAt front.now (length front.now) }
        ensures head { IfOk result (IsHeadWith front.now) }
        ensures none { IfErr result (IsNoHeadFor front.now) }
    {
        let mut fields = [EMPTY_HEADER_SPAN; MOST_FIELDS];
        match parse_request(front, &mut fields) {
            Ok(Status::Complete(line)) => Ok(Head {
                front,
                line,
                fields,
            }),
            Err(Error::TooManyHeaders) => Err(NotHead::TooManyFields),
            Ok(Status::Partial) | Err(_) => Err(NotHead::Other),
        }
    }

    /// The request of this head with this body.
    pub(crate) fn request(&self, alloc: Global, body: Vec<u8>) -> Result<Request, AllocError>
        ensures request { IfOk result (λ request. IsRequest request self.now body.items) }
    {
        Ok(Request {
            method: self.method().to_vec(alloc)?,
            target: self.target().to_vec(alloc)?,
            host: self.host().to_vec(alloc)?,
            agent: self.agent(),
            is_unnamed: self.is_unnamed(),
            key: self.key(),
            body,
            closes: self.closes(),
            complaint: self.complaint(),
            is_head: self.method() == b"HEAD".as_slice(),
        })
    }

    /// How long its body is.
    pub(crate) fn body_length(&self) -> usize
        ensures length { result ≡ body_length self.now }
    {
        match (self.complaint(), self.length()) {
            (None, Length::Bytes(length)) => length,
            _ => 0,
        }
    }

    /// The refusal of the head, if it is refused.
    fn complaint(&self) -> Option<Refusal>
        ensures first { result ≡ complaint_of self.now }
    {
        if !self.is_plain() {
            return Some(Refusal::BadHead);
        }
        match self.length() {
            Length::Bytes(length) if length > MOST_BYTES => Some(Refusal::TooLarge),
            Length::Untold if self.method() == b"POST".as_slice() => Some(Refusal::NoLength),
            _ => None,
        }
    }

    /// Whether it is of HTTP/1.1, with one host, no transfer encoding and at most one length.
    fn is_plain(&self) -> bool
        ensures plain { result ≡ is_plain self.now }
    {
        self.line.version == 1
            && matches!(self.find(b"host"), Found::Once(_))
            && matches!(self.find(b"transfer-encoding"), Found::Absent)
            && !matches!(self.length(), Length::Bad)
    }

    /// The length that the head gives.
    fn length(&self) -> Length
        ensures told { Tells result (lengths self.now) }
    {
        match self.find(b"content-length") {
            Found::Absent => Length::Untold,
            Found::Once(value) => match length_in(value) {
                Some(length) => Length::Bytes(length),
                None => Length::Bad,
            },
            Found::Again => Length::Bad,
        }
    }

    /// The method.
    pub(crate) fn method(&self) -> &'a [u8]
        ensures method { result.now ≡ self.now.method }
    {
        self.line.method.of(self.front)
    }

    /// The target.
    pub(crate) fn target(&self) -> &'a [u8]
        ensures target { result.now ≡ self.now.target }
    {
        self.line.path.of(self.front)
    }

    /// The host that it names, or nothing where it names none or two.
    pub(crate) fn host(&self) -> &'a [u8]
        ensures host { result.now ≡ host_of self.now }
    {
        match self.find(b"host") {
            Found::Once(value) => value,
            Found::Absent | Found::Again => &[],
        }
    }

    /// Who asks.
    pub(crate) fn agent(&self) -> Option<Agent>
        ensures agent { result ≡ agent_of self.now }
    {
        match self.named_agent() {
            Some(agent) if self.is_meant(agent) => Some(agent),
            _ => None,
        }
    }

    /// The agent that it names.
    fn named_agent(&self) -> Option<Agent>
        ensures agent { result ≡ named_agent self.now }
    {
        match self.find(b"desk-agent") {
            Found::Once(value) => agent_in(value),
            Found::Absent | Found::Again => None,
        }
    }

    /// Whether its fields `Desk-For` mean this agent: there is none, or one that names the agent.
    fn is_meant(&self, agent: Agent) -> bool
        ensures meant { result ≡ is_meant (meant_agents self.now) agent }
    {
        match self.find(b"desk-for") {
            Found::Absent => true,
            Found::Once(value) => value == agent.as_str().as_bytes(),
            Found::Again => false,
        }
    }

    /// Whether no field says who asks, or for whom.
    pub(crate) fn is_unnamed(&self) -> bool
        ensures unnamed { result ≡ is_unnamed self.now }
    {
        matches!(self.find(b"desk-agent"), Found::Absent)
            && matches!(self.find(b"desk-for"), Found::Absent)
    }

    /// Under which key.
    fn key(&self) -> Option<Key>
        ensures key { result ≡ key_of self.now }
    {
        match self.find(b"desk-key") {
            Found::Once(value) => key_in(value),
            Found::Absent | Found::Again => None,
        }
    }

    /// What stands in the fields of this name, in any case (RFC 9110, section 5.1).
    pub(crate) fn find(&self, name: &[u8]) -> Found<'a>
        ensures values { IsFound result (values_named name.now self.now.fields) }
    {
        let mut found = Found::Absent;
        let fields = &self.fields[..self.line.headers];
        for field in fields {
            if is_alike(field.name.of(self.front), name) {
                found = with_value(found, field.value.of(self.front));
            }
        }
        found
    }

    /// Whether some field `Connection` says `close`, in any case.
    fn closes(&self) -> bool
        ensures closes { result ≡ asks_to_close self.now }
    {
        let fields = &self.fields[..self.line.headers];
        for field in fields {
            if is_alike(field.name.of(self.front), b"connection")
                && is_alike(field.value.of(self.front), b"close")
            {
                return true;
            }
        }
        false
    }
}

/// How often a field occurs.
#[derive(Clone, Copy)]
pub(crate) enum Found<'a> {
    /// There is no such field.
    Absent,
    /// It occurs once, with this value.
    Once(&'a [u8]),
    /// It occurs twice or more.
    Again,
}

/// Whether two texts are the same but for the case of ASCII letters.
fn is_alike(text: &[u8], other: &[u8]) -> bool
    ensures alike { result ≡ is_alike text.now other.now }
{
    text.eq_ignore_ascii_case(other)
}

/// How often a field occurs after one more value.
fn with_value<'a>(found: Found<'a>, value: &'a [u8]) -> Found<'a>
    ensures more { (left values : List (List ℕ)) →
        IsFoundBefore (value.now ∷ left) found.entry values → IsFoundBefore left result values }
{
    match found {
        Found::Absent => Found::Once(value),
        Found::Once(_) | Found::Again => Found::Again,
    }
}

/// The agent that these bytes spell, if they spell one.
pub(crate) fn agent_in(bytes: &[u8]) -> Option<Agent>
    ensures form { result ≡ keep_if is_agent bytes.now }
{
    Agent::parse(std::str::from_utf8(bytes).ok()?)
}

/// The key that these bytes spell, if they spell one.
pub(crate) fn key_in(bytes: &[u8]) -> Option<Key>
    ensures form { result ≡ keep_if is_key bytes.now }
{
    Key::parse(std::str::from_utf8(bytes).ok()?)
}
