//! What lenient mode asks of a head.
ghost use Rattle.http_messages.specs.Fields.{IsNoHeadFor};
ghost use Rattle.http_messages.specs.WideHeads.{IsDeniedFront};

use crate::denials::Denial;
use crate::framing::{BodyKind, Unframed, body_kind};
use crate::heads::{Found, Head, NotHead};
use crate::places::LONGEST_HEAD;
use crate::plain::{host_for, plain_key, plain_method, plain_target};
use crate::requests::Request;
use crate::versions::names_other_version;
use commands::Key;
use http1::fields::KnownFields;
use std::alloc::{AllocError, Global};

/// How a decided prefix is denied that is no head.
pub(crate) fn denial_for(front: &[u8], why: NotHead) -> Denial
    requires { IsNoHeadFor front.now why }
    ensures denied { IsDeniedFront front.now result }
{
    if matches!(why, NotHead::TooManyFields) || front.len() == LONGEST_HEAD {
        Denial::LongHead
    } else if names_other_version(front) {
        Denial::OtherVersion
    } else {
        Denial::BadHead
    }
}

impl<'a> Head<'a> {
    ghost use Rattle.std.specs.Prelude.{◌≡◌, IfOk};
    ghost use Rattle.http1.specs.Fields.{known_fields};
    ghost use Rattle.http_messages.specs.Framing.{IsWithinLimit, has_host, head_kind};
    ghost use Rattle.http_messages.specs.Wide.{ends_after};
    ghost use Rattle.http_messages.specs.WideHeads.{asks_to_go_on};
    ghost use Rattle.http_messages.specs.Plain.{SaysPlainly, plain_key_of};

    /// How its body is framed.
    pub(crate) fn kind(&self) -> Result<BodyKind, Unframed>
        ensures kind { result ≡ head_kind self.now }
        ensures within { IfOk result IsWithinLimit }
    {
        if !self.has_host() {
            return Err(Unframed::BadHead);
        }
        body_kind(self.method(), self.line.version, &self.known())
    }

    /// Whether it is of HTTP/1.1 and asks for `100 Continue`.
    pub(crate) fn expects(&self) -> bool
        ensures expects { result ≡ asks_to_go_on self.now }
    {
        self.line.version == 1 && self.known().expect_continue
    }

    /// The request of the profile that stands for this head with this body.
    pub(crate) fn plain_request(&self, alloc: Global, body: Vec<u8>) -> Result<Request, AllocError>
        ensures says { IfOk result (λ request. SaysPlainly request self.now body.items) }
    {
        let host = host_for(self.target(), self.host());
        Ok(Request {
            method: plain_method(self.method()).to_vec(alloc)?,
            target: plain_target(self.target()).to_vec(alloc)?,
            host: host.to_vec(alloc)?,
            agent: self.agent(),
            is_unnamed: self.is_unnamed(),
            key: self.wide_key(alloc)?,
            body,
            closes: self.ends(),
            complaint: None,
            is_head: false,
        })
    }

    /// Whether it names a host as it must.
    fn has_host(&self) -> bool
        ensures host { result ≡ has_host self.now }
    {
        match self.find(b"host") {
            Found::Once(_) => true,
            Found::Absent => self.line.version == 0,
            Found::Again => false,
        }
    }

    /// Under which key.
    fn wide_key(&self, alloc: Global) -> Result<Option<Key>, AllocError>
        ensures key { IfOk result (λ key. key ≡ plain_key_of self.now) }
    {
        match self.find(b"desk-key") {
            Found::Once(value) => plain_key(alloc, value),
            Found::Absent | Found::Again => Ok(None),
        }
    }

    /// Whether the connection ends after it.
    fn ends(&self) -> bool
        ensures ends { result ≡ ends_after self.now }
    {
        self.line.version == 0 || self.known().close
    }

    /// What its fields say of the connection and the body.
    fn known(&self) -> KnownFields
        ensures known { result ≡ known_fields self.now.fields }
    {
        KnownFields::from_spans(self.front, &self.fields[..self.line.headers])
    }
}
