//! What is shown for a message that is read in lenient mode.
ghost use Rattle.std.specs.Prelude.{◌≡◌, IfOk, if◌then◌else◌, is_some};
ghost use Rattle.http_messages.specs.Messages as sent;
ghost use Rattle.http_messages.specs.Requests.{IsTaken};
ghost use Rattle.http_conversations.specs.Pages.{is_head, not_allowed_of, other_verb, own_verb, page_for, shown_at, shown_for};
ghost use Rattle.http_conversations.specs.Pages.{unless_asked, verb_at, verb_of_path};

use commands::Refusal;
use desk_http::Door;
use http_messages::{AskedKind, Message, Request};
use http_pages::{Paths, Route, Unrouted, Verb};
use report_words::asks_for_report;
use std::alloc::{AllocError, Global};

/// What is shown for a message.
#[derive(Clone, Copy, Debug, PartialEq, Eq)]
pub enum Shown {
    /// The page of the profile, with the lines for caches.
    Page,
    /// The same without its body.
    PageOfHead,
    /// What a path with this method allows, or the desk.
    Options(Option<Verb>),
    /// That the path has another method, this one; for HEAD without a body.
    NotAllowed(Verb, bool),
}

/// What is shown at a door for a message that asks for this. The only fault is out of memory.
pub(crate) fn shown_for(
    alloc: Global,
    paths: &Paths,
    door: Door,
    kind: AskedKind,
    message: &Message,
) -> Result<Shown, AllocError>
    ensures shown { IfOk result (λ shown. (m : sent.Message) → IsTaken message.now m →
        shown ≡ shown_for door kind m) }
{
    match message {
        Message::NoHead => Ok(Shown::Page),
        Message::Asks(request) => {
            let refusal = door.refusal_of(alloc, request)?;
            Ok(shown_unless(paths, door, kind, refusal, request))
        }
    }
}

/// What is shown at a door for a request that asks for this, whose head is refused there, or is not.
fn shown_unless(
    paths: &Paths,
    door: Door,
    kind: AskedKind,
    refusal: Option<Refusal>,
    request: &Request,
) -> Shown
    ensures shown { result ≡ (if is_some refusal then page_for kind
        else shown_at door kind request.now.method.items request.now.target.items) }
{
    if refusal.is_some() {
        page_for(kind)
    } else {
        shown_of(paths, door, kind, request)
    }
}

/// What is shown at a door for a request that asks for this.
fn shown_of(paths: &Paths, door: Door, kind: AskedKind, request: &Request) -> Shown
    ensures shown { result ≡ shown_at door kind request.now.method.items request.now.target.items }
{
    match kind {
        AskedKind::Options if request.target.as_slice() == b"*".as_slice() => Shown::Options(None),
        AskedKind::Options => match verb_at(paths, door, request) {
            Some(verb) => Shown::Options(Some(verb)),
            None => Shown::Page,
        },
        AskedKind::Get | AskedKind::Head | AskedKind::Post | AskedKind::Other => {
            not_allowed_of(kind, verb_at(paths, door, request))
        }
    }
}

/// What is shown for a request that asks for this, whose path has another method, this one, or has none.
fn not_allowed_of(kind: AskedKind, verb: Option<Verb>) -> Shown
    ensures shown { result ≡ not_allowed_of kind verb }
{
    match verb {
        Some(verb) => Shown::NotAllowed(verb, is_head(kind)),
        None => page_for(kind),
    }
}

/// The page of the profile; for HEAD without its body.
fn page_for(kind: AskedKind) -> Shown
    ensures page { result ≡ page_for kind }
{
    match kind {
        AskedKind::Head => Shown::PageOfHead,
        AskedKind::Get | AskedKind::Post | AskedKind::Options | AskedKind::Other => Shown::Page,
    }
}

/// Whether it is HEAD.
fn is_head(kind: AskedKind) -> bool
    ensures head { result ≡ is_head kind }
{
    match kind {
        AskedKind::Head => true,
        AskedKind::Get | AskedKind::Post | AskedKind::Options | AskedKind::Other => false,
    }
}

/// The method that the path of a request has at a door, where it is another than the request's.
fn verb_at(paths: &Paths, door: Door, request: &Request) -> Option<Verb>
    ensures verb { result ≡ verb_at door request.now.method.items request.now.target.items }
{
    match own_verb(door, &request.target) {
        Some(verb) => unless_asked(verb, &request.method),
        None => verb_of_path(paths, request),
    }
}

/// The method of a path that a door has of its own.
fn own_verb(door: Door, target: &[u8]) -> Option<Verb>
    ensures verb { result ≡ own_verb door target.now }
{
    match door {
        Door::House if target == b"/stop".as_slice() => Some(Verb::Post),
        Door::House if target == b"/metrics".as_slice() => Some(Verb::Get),
        Door::House if asks_for_report(target) => Some(Verb::Get),
        Door::Page(_) if target == b"/".as_slice() => Some(Verb::Get),
        Door::Port | Door::House | Door::Page(_) => None,
    }
}

/// This method, where another was asked for.
fn unless_asked(verb: Verb, method: &[u8]) -> Option<Verb>
    ensures verb { result ≡ unless_asked verb method.now }
{
    if method == verb.text().as_bytes() {
        None
    } else {
        Some(verb)
    }
}

/// The method that the path of a request has, where it is another than the request's.
fn verb_of_path(paths: &Paths, request: &Request) -> Option<Verb>
    ensures verb { result ≡ verb_of_path request.now.method.items request.now.target.items }
{
    other_verb(paths.route(&request.method, &request.target))
}

/// The method of a path that was asked for by another.
fn other_verb(found: Result<Route, Unrouted>) -> Option<Verb>
    ensures verb { result ≡ other_verb found }
{
    match found {
        Ok(_) => None,
        Err(Unrouted::UnknownPath) => None,
        Err(Unrouted::WrongMethod(verb)) => Some(verb),
        Err(Unrouted::BadPart) => None,
    }
}
