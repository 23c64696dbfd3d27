//! Requests to a desk, for tests in tables.
use crate::tests::helping::says;
use allotment::{Cell, Row};
use commands::{Batch, Command, Name};
use plan::Plan;
use saga_core::Book;
use std::alloc::Global;
use std::process::Abort;
use std::test::Fail;

/// A request: a load of these cells with their places, a begin of this plan, or a move of this journey.
#[derive(Clone, Copy)]
pub enum Asked {
    Load(&'static str, &'static [(&'static str, u32)]),
    Begin(&'static str),
    Step(u64),
    Abort(u64, usize),
    Stop(u64),
    Save(u64),
}

/// The batch of this name. No cell here has more places than a cell may have.
fn batch_of(alloc: Global, name: &str, cells: &[(&str, u32)]) -> Result<Batch, Fail> {
    let mut rows = Vec::new(alloc);
    for &(cell, places) in cells {
        let cell = Cell::parse(cell).ok_or("no cell")?;
        rows.push(Row::new(cell, places.min(100_000)))?;
    }
    let name = Name::parse(name).ok_or("no name")?;
    Ok(Batch::new(alloc, name, rows)?)
}

pub fn command_of(alloc: Global, asked: Asked) -> Result<Command, Fail> {
    Ok(match asked {
        Asked::Load(name, cells) => Command::Load(batch_of(alloc, name, cells)?),
        Asked::Begin(line) => Command::Begin(Plan::from_line(alloc, line)?),
        Asked::Step(id) => Command::Step(id),
        Asked::Abort(id, position) => Command::Abort(id, position),
        Asked::Stop(id) => Command::Stop(id),
        Asked::Save(id) => Command::Save(id),
    })
}

/// Sends these requests for the house in order, and checks the answers.
pub fn is_answered<B: Book>(
    rt: &impl Abort,
    alloc: Global,
    book: &mut B,
    rows: &[(Asked, &str)],
) -> Result<(), Fail> {
    for &(asked, expected) in rows {
        let reply = book.act(&command_of(alloc, asked)?, None)?;
        says(rt, alloc, &reply, expected)?;
    }
    Ok(())
}
