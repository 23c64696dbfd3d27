//! Runs over the lines of a reader, answered by a recovered desk.
ghost use Rattle.recovery.specs.Answering.{AnswersLine, AnswersOrder};
ghost use Rattle.recovery.specs.Lines.{lines, meaning_in};
ghost use Rattle.recovery.specs.Orders.{meaning_of};
ghost use Rattle.recovery.specs.Reading.{Keeps, KeepsMore, SaysIfAny};
ghost use Rattle.recovery.specs.Serving.{AnswersAll, AnswersSome};
ghost use Rattle.recovery.specs.LineWorlds.{GoesOnAmongLines, asks_in, asks_meant};
ghost use Rattle.ledger.specs.Answer.{State};
ghost use Rattle.saga_core.specs.StreamScenes.{scene};
ghost use Rattle.saga_core.specs.Calls.{Serves};
ghost use Rattle.saga_core.specs.Reasons.{ActsOnAfter, FailsAmong};
ghost use Rattle.saga_core.specs.Worlds.{GoesOnWith};
ghost use Rattle.std.specs.Io.KnownBytes.{IsAtEnd};
ghost use Rattle.std.specs.Prelude.{◌≡◌, IfOk, IfErr, IfSome, IsErrOf, OnOk, List, ℕ, []};

use crate::orders::{Order, order_of};
use crate::ready::Ready;
use crate::unread::Unread;
use saga_core::{Book, ServeFault, send};
use std::alloc::{AllocError, Global};
use std::io::{Read, Write};

/// Answers the lines of a reader, each by one line, and returns how many there were.
///
/// Each answer is written and flushed before the next line is read. Errors report that reading, writing, memory or the
/// store failed.
pub fn run_lines<R: Read, W: Write, B: Book>(
    alloc: Global,
    reader: &mut R,
    writer: &mut W,
    book: &mut Ready<B>,
) -> Result<u64, ServeFault>
    ensures all { B.is_sound book.new → (s : State) → B.stands book.old s →
        IfSome (R.remaining reader.old) (λ input. IfOk result (AnswersAll
        (scene (W.contents writer.old) (W.contents writer.new)
        (B.stands book.new) (B.leaves book.new)) s input)) }
    ensures read { OnOk result (IsAtEnd (R.remaining reader.new)) }

    ensures some { B.is_sound book.new → (s : State) → B.stands book.old s →
        IfSome (R.remaining reader.old) (λ input. IfErr result (AnswersSome
        (scene (W.contents writer.old) (W.contents writer.new)
        (B.stands book.new) (B.leaves book.new)) s input)) }

    ensures world { B.is_sound book.new → IfSome (R.remaining reader.old) (λ input.
        OnOk result (GoesOnWith (B.stands book.old) (B.stands book.new) (B.leaves book.new)
        (asks_in (lines input)))) }
    ensures world_at_fault { B.is_sound book.new → IfSome (R.remaining reader.old) (λ input.
        IfErr result (GoesOnAmongLines (B.stands book.old)
        (scene (W.contents writer.old) (W.contents writer.new)
        (B.stands book.new) (B.leaves book.new)) input)) }
    ensures serves { Serves B.is_sound B.leaves B.has_failed book.old book.new
        ServeFault.Store result }
    ensures may_act { B.is_sound book.new → (first : B) → OnOk result
        (IfSome (R.remaining reader.old) (λ input. ActsOnAfter
        (B.may_act first book.old) (B.may_act first book.new) (asks_in (lines input)))) }
    ensures reason { B.is_sound book.new → (first : B) → IsErrOf result ServeFault.Store →
        IfSome (R.remaining reader.old) (λ input. FailsAmong
        (B.may_act first book.old) (B.has_reason first book.new) (asks_in (lines input))) }
{
    answer_input(alloc, reader, writer, book)
}

/// Does the same over any book.
fn answer_input<R: Read, W: Write, B: Book>(
    alloc: Global,
    reader: &mut R,
    writer: &mut W,
    book: &mut B,
) -> Result<u64, ServeFault>
    ensures all { B.is_sound book.new → (s : State) → B.stands book.old s →
        IfSome (R.remaining reader.old) (λ input. IfOk result (AnswersAll
        (scene (W.contents writer.old) (W.contents writer.new)
        (B.stands book.new) (B.leaves book.new)) s input)) }
    ensures read { OnOk result (IsAtEnd (R.remaining reader.new)) }

    ensures some { B.is_sound book.new → (s : State) → B.stands book.old s →
        IfSome (R.remaining reader.old) (λ input. IfErr result (AnswersSome
        (scene (W.contents writer.old) (W.contents writer.new)
        (B.stands book.new) (B.leaves book.new)) s input)) }
    ensures serves { Serves B.is_sound B.leaves B.has_failed book.old book.new
        ServeFault.Store result }
    ensures may_act { B.is_sound book.new → (first : B) → OnOk result
        (IfSome (R.remaining reader.old) (λ input. ActsOnAfter
        (B.may_act first book.old) (B.may_act first book.new) (asks_in (lines input)))) }
    ensures reason { B.is_sound book.new → (first : B) → IsErrOf result ServeFault.Store →
        IfSome (R.remaining reader.old) (λ input. FailsAmong
        (B.may_act first book.old) (B.has_reason first book.new) (asks_in (lines input))) }
{
    let mut unread = Unread::new(alloc)?;
    let mut line = Line::new(alloc);
    for answered in 0..u64::MAX {
        if !unread.next_line(reader, &mut line)? {
            return Ok(answered);
        }
        let text = answer(alloc, &line, book)?;
        send(writer, text.as_bytes())?;
    }
    Err(ServeFault::Read)
}

/// Answers a line of the house. Returns the text of the answer, with a line feed at its end.
pub(crate) fn answer<B: Book>(
    alloc: Global,
    line: &Line,
    book: &mut B,
) -> Result<String, ServeFault>
    ensures answer { B.is_sound book.new → (s : State) → B.stands book.old s →
        (text : List ℕ) → Keeps line.now text →
        AnswersLine (B.stands book.new) (B.leaves book.new) s text result }

    ensures serves { Serves B.is_sound B.leaves B.has_failed book.old book.new
        ServeFault.Store result }
    ensures may_act { B.is_sound book.new → (first : B) → (text : List ℕ) → Keeps line.now text →
        OnOk result (ActsOnAfter (B.may_act first book.old) (B.may_act first book.new)
        (asks_meant (meaning_in text))) }
    ensures reason { B.is_sound book.new → (first : B) → (text : List ℕ) → Keeps line.now text →
        IsErrOf result ServeFault.Store → FailsAmong
        (B.may_act first book.old) (B.has_reason first book.new) (asks_meant (meaning_in text)) }
{
    let order = order_of(alloc, line)?;
    carry_out(alloc, &order, book)
}

/// Executes an order. Returns the text of the answer, with a line feed at its end.
fn carry_out<B: Book>(alloc: Global, order: &Order, book: &mut B) -> Result<String, ServeFault>
    ensures answer { B.is_sound book.new → (s : State) → B.stands book.old s →
        AnswersOrder (B.stands book.new) (B.leaves book.new) s (meaning_of order.now) result }

    ensures serves { Serves B.is_sound B.leaves B.has_failed book.old book.new
        ServeFault.Store result }
    ensures may_act { B.is_sound book.new → (first : B) → OnOk result (ActsOnAfter
        (B.may_act first book.old) (B.may_act first book.new) (asks_meant (meaning_of order.now))) }
    ensures reason { B.is_sound book.new → (first : B) →
        IsErrOf result ServeFault.Store → FailsAmong
        (B.may_act first book.old) (B.has_reason first book.new)
        (asks_meant (meaning_of order.now)) }
{
    let mut text = match order {
        Order::Do(command) => book.act(command, None)?.line(alloc)?,
        Order::Refuse(refusal) => refusal.line(alloc)?,
    };
    text.push('\n')?;
    Ok(text)
}

/// The most bytes that a line may have, without its line feed.
pub(crate) const LONGEST_LINE: usize = 8192;

/// One line, without its line feed: its bytes, or only that it is too long.
#[derive(Drop)]
pub(crate) struct Line {
    /// The bytes of a line that is not too long.
    pub(crate) kept: Vec<u8>,
    pub(crate) is_long: bool,
}

impl Line {
    /// An empty line.
    pub(crate) fn new(alloc: Global) -> Line
        ensures { Keeps result [] }
    {
        Line {
            kept: Vec::new(alloc),
            is_long: false,
        }
    }

    /// Empties the line, for the next one.
    pub(crate) fn clear(&mut self)
        ensures { Keeps self.new [] }
    {
        self.kept.clear();
        self.is_long = false;
    }

    /// Whether the line has a byte.
    pub(crate) fn has_bytes(&self) -> bool
        ensures { SaysIfAny self.now result }
    {
        self.is_long || !self.kept.is_empty()
    }

    /// Appends a piece. A line that becomes too long keeps only that it is. The only fault is out of memory.
    pub(crate) fn add(&mut self, piece: &[u8]) -> Result<(), AllocError>
        ensures { OnOk result (KeepsMore self.old self.new piece.now) }
    {
        if self.is_long || piece.len() > LONGEST_LINE.saturating_sub(self.kept.len()) {
            self.is_long = true;
            return Ok(());
        }
        self.kept.extend_from_slice(piece)
    }
}
