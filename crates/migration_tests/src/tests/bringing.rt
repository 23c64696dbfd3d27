//! Files with thousands of items, and without one, are migrated: every row is there as before, once.
use crate::tests::helping::{bring_over, holds, open_for};
use crate::tests::old_files::{OldFile, old_file};
use crate::tests::rows::{Held, Schema, held_in};
use memory_files::Session;
use sqlite::{Alter, Connection};
use std::alloc::Global;
use std::process::Abort;
use std::test::Fail;
use tables::{MigrateFault, Migrated};

/// Checks that an old file has these contents, and is migrated with so many events.
#[derive(Drop)]
struct BroughtOver<'a> {
    held: &'a Held<'a>,
    events: u64,
}

impl<R: Abort> Session<R> for BroughtOver<'_> {
    fn run<S: Alter + Drop>(
        &mut self,
        rt: &R,
        alloc: Global,
        mut conn: Connection<S>,
    ) -> Result<Connection<S>, Fail> {
        let before = self.held.is_found(rt, alloc, &mut conn)?;
        holds(rt, "old", before == Schema::Old);
        let answer = bring_over(rt, &mut conn);
        let events = self.events;
        holds(rt, "the answer", answer == Ok(Migrated { events }));
        let after = self.held.is_found(rt, alloc, &mut conn)?;
        holds(rt, "new", after == Schema::New);
        Ok(conn)
    }
}

/// Checks that a new file has these contents, and is not migrated again.
#[derive(Drop)]
struct StaysNew<'a> {
    held: &'a Held<'a>,
}

impl<R: Abort> Session<R> for StaysNew<'_> {
    fn run<S: Alter + Drop>(
        &mut self,
        rt: &R,
        alloc: Global,
        mut conn: Connection<S>,
    ) -> Result<Connection<S>, Fail> {
        let before = self.held.is_found(rt, alloc, &mut conn)?;
        holds(rt, "new", before == Schema::New);
        let answer = bring_over(rt, &mut conn);
        holds(rt, "done before", answer == Err(MigrateFault::AlreadyNew));
        Ok(conn)
    }
}

/// Checks that the file is migrated with so many events, and not again.
fn is_brought_over(
    rt: &impl Abort,
    alloc: Global,
    file: &OldFile,
    events: u64,
) -> Result<(), Fail> {
    let held = &held_in(rt, alloc, file)?;
    let db = open_for(
        rt,
        alloc,
        &[],
        file.bytes(),
        &mut BroughtOver { held, events },
    )?;
    let left = open_for(rt, alloc, &[], db.bytes(), &mut StaysNew { held })?;
    holds(rt, "nothing is written", left.bytes() == db.bytes());
    Ok(())
}

// what the row shows, rounds, and events: 35 a round, and two batches if there is a round
#[rattlefmt::skip]
static FILES: [(&str, u32, u64); 3] = [
    ("no event",                                0,   0),
    ("one round",                               1,   37),
    ("more events than one statement copies", 130, 4552),
];

#[test]
fn every_row_is_brought_over(rt: HostRuntime) -> Result<(), Fail> {
    let alloc = rt.alloc();
    for (case, rounds, events) in FILES {
        let file = old_file(&rt, alloc, rounds)?;
        holds(&rt, case, u64::try_from(file.written.events) == Ok(events));
        is_brought_over(&rt, alloc, &file, events)?;
    }
    Ok(())
}
