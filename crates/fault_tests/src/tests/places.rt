//! Places, counted from what journeys did.
use crate::tests::helping::{MOST_JOURNEYS, holds};
use allotment::{Cell, Want};
use commands::Item;
use plan::Plan;
use saga_core::Book;
use std::process::Abort;
use std::test::Fail;

/// The want of an option of a step, if the plan has it.
pub fn want_of(plan: &Plan, step: usize, option: usize) -> Option<Want> {
    if step == 0 || step > plan.steps() {
        return None;
    }
    if option == 0 || option > plan.options(step) {
        return None;
    }
    Some(plan.want(step, option))
}

/// How many places of a cell an option of a step wants.
fn wanted(plan: &Plan, step: usize, option: usize, cell: &Cell) -> u64 {
    let Some(want) = want_of(plan, step, option) else {
        return 0;
    };
    for own in want.cells() {
        if own == *cell {
            return u64::from(want.count());
        }
    }
    0
}

/// How many places of a cell the items of a journey took, without those that they gave back.
fn held_by(plan: &Plan, items: &[Item], cell: &Cell) -> u64 {
    let mut held = 0u64;
    for item in items {
        match item {
            Item::Transaction { step, option } => {
                held = held.saturating_add(wanted(plan, *step, *option, cell));
            }
            Item::Compensation { step, option } => {
                held = held.saturating_sub(wanted(plan, *step, *option, cell));
            }
            Item::Turn { .. } | Item::Save { .. } => {}
        }
    }
    held
}

/// How many places of a cell all journeys hold.
fn held<B: Book>(book: &mut B, cell: &Cell) -> Result<u64, Fail> {
    let mut sum = 0u64;
    for id in 1..MOST_JOURNEYS {
        let Some(record) = book.journey(id)? else {
            break;
        };
        let items = book.history(id)?;
        sum = sum.saturating_add(held_by(&record.plan, &items, cell));
    }
    Ok(sum)
}

/// Checks that the free places of each cell and those that journeys hold are its allotment.
pub fn check_places<B: Book>(rt: &impl Abort, book: &mut B) -> Result<(), Fail> {
    for (cell, places) in &book.stock()? {
        let sum = held(book, cell)?.saturating_add(u64::from(places.free));
        holds(rt, "free and held places", sum == u64::from(places.allot));
    }
    Ok(())
}
