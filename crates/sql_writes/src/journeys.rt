//! The rows of an event of a journey: its item, the journey's cursor, the numbers of `meta`, and the places of its want.

ghost use Rattle.std.specs.Prelude.{◌≡◌, ◌<◌, ◌^◌};
ghost use Rattle.desk_sql.specs.Changes.{AreItemsBelow, IsSmallCursor, IsSmallItem};
ghost use Rattle.sql_writes.specs.Did.{Did};
ghost use Rattle.sql_writes.specs.Writing.{HaveFreeFor, HaveRoomFor};
ghost use Rattle.sql_writes.specs.Events.{IsSmallStep, IsSmallTurn, IsSmallSave, MayTake, MayGive, transaction_rows, compensation_rows, turn_rows, save_rows};
ghost use Rattle.sql_writes.specs.Permits.{MayDo, MayMoveOn, MaySave, MayUndo, MayAdd, MayGiveWant, MayTakeWant};
ghost use Rattle.desk_sql.specs.Stock.{IsSmallRange};
ghost use Rattle.sql_model.specs.Reading.{IsRangeOf};
ghost use Rattle.sql_model.specs.Moving.{cursor_written, item_written, with_item, with_move, takes_want, gives_want};

use crate::events::{Numbers, SaveMade, StepMade, TurnMade};
use allotment::{Code, Want};
use commands::{Cause, Cursor, Item, Phase};
use desk_sql::{
    Cursor as CursorRow, ItemFound, NightRange, delete_mark, give_nights, insert_item, insert_mark,
    mark_step, move_journey, take_nights, update_meta,
};
use sqlite::{Alter, Error, Transaction};

/// Writes the rows of a step that is done: its want is taken, and its option is marked as taken.
pub fn write_transaction<S: Alter>(
    tx: &mut Transaction<'_, S>,
    numbers: Numbers,
    made: StepMade,
) -> Result<(), Error>
    requires { IsSmallStep made }

    ensures did { Did S.Store tx.old.conn tx.new.conn result
        (MayTake numbers made) (MayDo numbers made) 0 (transaction_rows numbers made) }
{
    let StepMade {
        journey,
        step,
        option,
        want,
        cursor,
    } = made;
    take_want(tx, want)?;
    mark_step(tx, journey, step as u64, option as u64, 1)?;
    write_move(
        tx,
        numbers,
        journey,
        Item::Transaction { step, option },
        cursor,
    )
}

/// Writes the rows of a step that is compensated: the places of its want are returned, its option is no longer marked as taken, and
/// the save-point after the step is deleted.
pub fn write_compensation<S: Alter>(
    tx: &mut Transaction<'_, S>,
    numbers: Numbers,
    made: StepMade,
) -> Result<(), Error>
    requires { IsSmallStep made }

    ensures did { Did S.Store tx.old.conn tx.new.conn result
        (MayGive numbers made) (MayUndo numbers made) 0 (compensation_rows numbers made) }
{
    let StepMade {
        journey,
        step,
        option,
        want,
        cursor,
    } = made;
    give_want(tx, want)?;
    mark_step(tx, journey, step as u64, option as u64, 0)?;
    delete_mark(tx, journey, step as u64)?;
    write_move(
        tx,
        numbers,
        journey,
        Item::Compensation { step, option },
        cursor,
    )
}

/// Writes the rows of a turn.
pub fn write_turn<S: Alter>(
    tx: &mut Transaction<'_, S>,
    numbers: Numbers,
    made: TurnMade,
) -> Result<(), Error>
    requires { IsSmallTurn made }

    ensures did { Did S.Store tx.old.conn tx.new.conn result
        (AreItemsBelow numbers.num) (MayMoveOn numbers made.journey) 0 (turn_rows numbers made) }
{
    let TurnMade {
        journey,
        target,
        cause,
        cursor,
    } = made;
    write_move(tx, numbers, journey, Item::Turn { target, cause }, cursor)
}

/// Writes the rows of a save-point.
pub fn write_save<S: Alter>(
    tx: &mut Transaction<'_, S>,
    numbers: Numbers,
    made: SaveMade,
) -> Result<(), Error>
    requires { IsSmallSave made }

    ensures did { Did S.Store tx.old.conn tx.new.conn result
        (AreItemsBelow numbers.num) (MaySave numbers made) 1 (save_rows numbers made) }
{
    let SaveMade { journey, position } = made;
    insert_mark(tx, journey, position as u64)?;
    write_item(tx, numbers, journey, Item::Save { position })
}

/// The row of a cursor.
fn cursor_row(cursor: Cursor) -> CursorRow
    ensures { result ≡ cursor_written cursor }
{
    let (phase, target) = match cursor.phase {
        Phase::Run => (0, 0),
        Phase::Back(target) => (1, target as u64),
        Phase::Ended => (2, 0),
        Phase::Undone => (3, 0),
    };
    CursorRow {
        pos: cursor.pos as u64,
        phase,
        target,
        used: cursor.used as u64,
    }
}

/// The row of an item under the number of its event.
fn item_row(num: u64, item: Item) -> ItemFound
    ensures { result ≡ item_written num item }
{
    let (kind, a, b) = match item {
        Item::Transaction { step, option } => (0, step, option),
        Item::Compensation { step, option } => (1, step, option),
        Item::Turn {
            target,
            cause: Cause::Stop,
        } => (2, target, 0),
        Item::Turn {
            target,
            cause: Cause::Refused,
        } => (2, target, 1),
        Item::Turn {
            target,
            cause: Cause::Asked,
        } => (2, target, 2),
        Item::Save { position } => (3, position, 0),
    };
    ItemFound {
        num,
        item: kind,
        a: a as u64,
        b: b as u64,
    }
}

/// Inserts the row of an item, and updates the numbers of `meta`.
pub(crate) fn write_item<S: Alter>(
    tx: &mut Transaction<'_, S>,
    numbers: Numbers,
    journey: u64,
    item: Item,
) -> Result<(), Error>
    requires journey { journey < 2 ^ 63 }
    requires item { IsSmallItem (item_written numbers.num item) }

    ensures did { Did S.Store tx.old.conn tx.new.conn result
        (AreItemsBelow numbers.num) (MayAdd numbers journey) 0
        (with_item numbers.num numbers.journeys journey item) }
{
    let row = item_row(numbers.num, item);
    insert_item(tx, journey, row)?;
    update_meta(tx, 2, numbers.num, numbers.journeys)?;
    Ok(())
}

/// Updates the cursor of the journey, inserts the row of an item, and updates the numbers of `meta`.
pub(crate) fn write_move<S: Alter>(
    tx: &mut Transaction<'_, S>,
    numbers: Numbers,
    journey: u64,
    item: Item,
    cursor: Cursor,
) -> Result<(), Error>
    requires journey { journey < 2 ^ 63 }
    requires item { IsSmallItem (item_written numbers.num item) }
    requires cursor { IsSmallCursor (cursor_written cursor) }

    ensures did { Did S.Store tx.old.conn tx.new.conn result
        (AreItemsBelow numbers.num) (MayMoveOn numbers journey) 0
        (with_move numbers.num numbers.journeys journey item cursor) }
{
    let row = cursor_row(cursor);
    move_journey(tx, journey, row)?;
    write_item(tx, numbers, journey, item)
}

/// The range of a want's nights, of its supplier and its product.
fn range_of<'x>(want: Want, supplier: &'x Code, product: &'x Code) -> NightRange<'x>
    requires supplier { supplier.now ≡ want.supplier }
    requires product { product.now ≡ want.product }

    ensures range { IsRangeOf result want }
    ensures small { IsSmallRange result }
{
    let first = u64::from(want.first().day());
    NightRange {
        kind: u64::from(want.kind().number()),
        supplier: supplier.as_str(),
        product: product.as_str(),
        first,
        last: first + u64::from(want.nights()) - 1,
    }
}

/// Takes the places of a want, and returns how many nights it has.
fn take_want<S: Alter>(tx: &mut Transaction<'_, S>, want: Want) -> Result<usize, Error>
    ensures did { Did S.Store tx.old.conn tx.new.conn result
        (HaveFreeFor want) (MayTakeWant want) 0 (takes_want want) }
{
    let supplier = want.supplier();
    let product = want.product();
    let range = range_of(want, &supplier, &product);
    take_nights(tx, range, u64::from(want.count()))
}

/// Gives back the places of a want, and returns how many nights it has.
fn give_want<S: Alter>(tx: &mut Transaction<'_, S>, want: Want) -> Result<usize, Error>
    ensures did { Did S.Store tx.old.conn tx.new.conn result
        (HaveRoomFor want) (MayGiveWant want) 0 (gives_want want) }
{
    let supplier = want.supplier();
    let product = want.product();
    let range = range_of(want, &supplier, &product);
    give_nights(tx, range, u64::from(want.count()))
}
