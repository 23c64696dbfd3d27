//! Modes; the first message of bytes in a mode, and its page by its layout.

ghost use Rattle.http_conversations.specs.Reading.{IsDueBy, IsFirstBy, IsFirstOfBy, IsRead};
ghost use Rattle.http_conversations.specs.PageTexts.{go_on};
ghost use Rattle.std.specs.Prelude.{◌≡◌, ◌↔◌, IfOk, IsTrue, length, IfErr};
ghost use Rattle.http_messages.specs.WideReading.{IsFirstOf};
ghost use Rattle.http_conversations.specs.declared.modes.Mode.TheVariants.{Strict, Lenient};
ghost use Rattle.ledger.specs.Answer.{State};
ghost use Rattle.saga_core.specs.Calls.{Serves};
ghost use Rattle.desk_http.specs.Pages.{closes, stops};
ghost use Rattle.desk_http.specs.Reasons.{GoesOnAt};
ghost use Rattle.http_conversations.specs.Pages.{AnswersAt, LaysOut, laid_out, shown_text};
ghost use Rattle.http_conversations.specs.Modes.{Said};

use crate::allowed::{not_allowed_page, options_page};
use crate::dates::date_line;
use crate::denials::{denial_page, go_on};
use crate::lines::wide_page;
use crate::showing::{Shown, shown_for};
use commands::MOST_BYTES;
use desk_http::{Answer, Door, answer_to};
use http_log::Metrics;
use http_messages::{
    AskedKind, Denial, LONGEST_HEAD, Message, WideMessage, WideRequest, first_message,
    first_wide_message, go_on_is_due,
};
use http_pages::Paths;
use report_kinds::Reporting;
use saga_core::ServeFault;
use std::alloc::{AllocError, Global};

/// How messages are read, and how pages are laid out.
#[derive(Clone, Copy, Debug, PartialEq, Eq)]
pub enum Mode {
    /// The desk's profile of HTTP/1.1.
    Strict,
    /// HTTP as libraries, proxies and pools speak it: HTTP/1.0 and HTTP/1.1, with bodies in chunks.
    Lenient,
}

/// How the page of a message is laid out.
#[derive(Clone, Copy, Debug, PartialEq, Eq)]
pub enum Layout {
    /// As the profile lays it out.
    Profile,
    /// With the lines for caches, for what the message asks for.
    Wide(AskedKind),
    /// The page of this status: the message is not read.
    Denied(Denial),
    /// No page: the connection is ended at once.
    Nothing,
}

/// A message that was read.
#[derive(Debug, Drop)]
pub struct Arrived {
    /// The message of the profile that is carried out for it.
    pub message: Message,
    /// How its page is laid out.
    pub layout: Layout,
}

/// Whether `100 Continue` is to be sent now in a mode: never in strict mode.
pub fn go_on_by(mode: Mode, bytes: &[u8], was_sent: bool) -> bool
    ensures due { IsTrue result ↔ IsDueBy mode bytes.now was_sent }
{
    match mode {
        Mode::Strict => false,
        Mode::Lenient => go_on_is_due(bytes, was_sent),
    }
}

/// The bytes of `100 Continue`. The only fault is out of memory.
pub fn go_on_text(alloc: Global) -> Result<Vec<u8>, AllocError>
    ensures text { IfOk result (λ text. text.items ≡ go_on) }
{
    go_on().as_bytes().to_vec(alloc)
}

/// How many bytes the text of a message may have, with the sizes of its chunks.
pub const MOST_TEXT: usize = LONGEST_HEAD + MOST_BYTES;

/// The first message of these bytes in a mode, with how many bytes it has; `None` if none is whole yet.
///
/// In lenient mode, as many bytes as the text of a message may have are denied where none is whole. The only fault is out
/// of memory.
pub fn first_by(
    alloc: Global,
    mode: Mode,
    bytes: &[u8],
) -> Result<Option<(Arrived, usize)>, AllocError>
    ensures first { IfOk result (IsFirstBy mode bytes.now) }
{
    match mode {
        Mode::Strict => first_plain(alloc, bytes),
        Mode::Lenient => first_wide(alloc, bytes),
    }
}

/// The first message in strict mode.
fn first_plain(alloc: Global, bytes: &[u8]) -> Result<Option<(Arrived, usize)>, AllocError>
    ensures first { IfOk result (IsFirstBy Strict bytes.now) }
{
    match first_message(alloc, bytes)? {
        Some((message, count)) => {
            let layout = Layout::Profile;
            Ok(Some((Arrived { message, layout }, count)))
        }
        None => Ok(None),
    }
}

/// The first message in lenient mode.
fn first_wide(alloc: Global, bytes: &[u8]) -> Result<Option<(Arrived, usize)>, AllocError>
    ensures first { IfOk result (IsFirstBy Lenient bytes.now) }
{
    match first_wide_message(alloc, bytes)? {
        Some((message, count)) => Ok(Some(taken(bytes, message, count))),
        None if bytes.len() >= MOST_TEXT => Ok(Some(unread(
            bytes,
            Layout::Denied(Denial::TooLarge),
        ))),
        None => Ok(None),
    }
}

/// The first message, of which so many bytes were read.
fn taken(bytes: &[u8], message: WideMessage, count: usize) -> (Arrived, usize)
    requires first { IsFirstOf bytes.now message count }
    ensures first { IsFirstOfBy Lenient bytes.now result.0 result.1 }
{
    match message {
        WideMessage::Asks(asks) => (asked(asks), count),
        WideMessage::Denied(why) => unread(bytes, Layout::Denied(why)),
        WideMessage::NoMethod => unread(bytes, Layout::Nothing),
    }
}

/// A request that was read.
fn asked(asks: WideRequest) -> Arrived
    ensures asked { result ≡
        record { message = Message.Asks asks.request; layout = Layout.Wide asks.kind } }
{
    let WideRequest { kind, request } = asks;
    Arrived {
        message: Message::Asks(request),
        layout: Layout::Wide(kind),
    }
}

/// A message that is not read: all bytes are its own.
fn unread(bytes: &[u8], layout: Layout) -> (Arrived, usize)
    ensures all { result ≡ (record { message = Message.NoHead; layout = layout }, length bytes.now) }
{
    let arrived = Arrived {
        message: Message::NoHead,
        layout,
    };
    (arrived, bytes.len())
}

/// Answers a message that came in at a door: carries out what it means, and lays out its page. In lenient mode the page has
/// the date of this second since 1970, if the clock was read.
///
/// Out of memory, it was carried out or not, and has no page.
pub fn answer_by<B: Reporting>(
    alloc: Global,
    paths: &Paths,
    door: Door,
    second: Option<u64>,
    arrived: &Arrived,
    metrics: &Metrics,
    book: &mut B,
) -> Result<Answer, ServeFault>
    ensures answer { B.is_sound book.new → (s : State) → B.stands book.old s →
        (x : Said) → IsRead arrived.now x →
        AnswersAt (B.stands book.new) (B.leaves book.new) s door second x result }
    ensures closes { IfOk result (λ answer. (x : Said) → IsRead arrived.now x →
        answer.closes ≡ closes door x.meant) }
    ensures stops { IfOk result (λ answer. (x : Said) → IsRead arrived.now x →
        answer.stops ≡ stops door x.meant) }

    ensures serves { Serves B.is_sound B.leaves B.has_failed book.old book.new
        ServeFault.Store result }
    ensures may_act { B.is_sound book.new → (first : B) → (x : Said) → IsRead arrived.now x →
        GoesOnAt (B.may_act first book.old) (B.may_act first book.new) (B.has_reason first book.new)
        door x.meant result }
{
    match answer_to(alloc, paths, door, &arrived.message, metrics, book) {
        Ok(answer) => lay_out(alloc, paths, door, second, arrived, answer),
        Err(fault) => Err(fault),
    }
}

/// An answer to a message, in its layout.
fn lay_out(
    alloc: Global,
    paths: &Paths,
    door: Door,
    second: Option<u64>,
    arrived: &Arrived,
    answer: Answer,
) -> Result<Answer, ServeFault>
    ensures bytes { (x : Said) → IsRead arrived.now x → IfOk result (λ made.
        LaysOut door second x answer.closes answer.bytes.items made.bytes.items) }
    ensures closes { IfOk result (λ made. made.closes ≡ answer.closes) }
    ensures stops { IfOk result (λ made. made.stops ≡ answer.stops) }

    ensures memory { IfErr result (λ fault. fault ≡ ServeFault.Memory) }
{
    let (closes, stops) = (answer.closes, answer.stops);
    let Ok(date) = date_line(alloc, second) else {
        return Err(ServeFault::Memory);
    };
    match laid_out(alloc, paths, door, date.as_str(), arrived, answer) {
        Ok(bytes) => Ok(Answer {
            bytes,
            closes,
            stops,
        }),
        Err(_) => Err(ServeFault::Memory),
    }
}

/// The bytes of an answer to a message, in its layout, with this date line. The only fault is out of memory.
fn laid_out(
    alloc: Global,
    paths: &Paths,
    door: Door,
    date: &str,
    arrived: &Arrived,
    answer: Answer,
) -> Result<Vec<u8>, AllocError>
    ensures bytes { IfOk result (λ bytes. (x : Said) → IsRead arrived.now x →
        bytes.items ≡ laid_out x.layout door x.meant answer.closes date.now answer.bytes.items) }
{
    match arrived.layout {
        Layout::Profile => Ok(answer.bytes),
        Layout::Nothing => Ok(Vec::new(alloc)),
        Layout::Denied(why) => Ok(denial_page(alloc, why, date)?.into_bytes()),
        Layout::Wide(kind) => {
            let shown = shown_for(alloc, paths, door, kind, &arrived.message)?;
            shown_bytes(alloc, shown, &answer, date)
        }
    }
}

/// The bytes of what is shown in lenient mode, with this date line. The only fault is out of memory.
fn shown_bytes(
    alloc: Global,
    shown: Shown,
    answer: &Answer,
    date: &str,
) -> Result<Vec<u8>, AllocError>
    ensures bytes { IfOk result (λ bytes.
        bytes.items ≡ shown_text shown answer.now.closes date.now answer.now.bytes.items) }
{
    match shown {
        Shown::Page => wide_page(alloc, &answer.bytes, false, date),
        Shown::PageOfHead => wide_page(alloc, &answer.bytes, true, date),
        Shown::Options(verb) => Ok(options_page(alloc, verb, answer.closes, date)?.into_bytes()),
        Shown::NotAllowed(verb, is_head) => {
            Ok(not_allowed_page(alloc, verb, is_head, answer.closes, date)?.into_bytes())
        }
    }
}
