//! Stores that fail from some call on while they are migrated: the file that is found after the crash is the old one or
//! the new one, and the next migration completes it.
use crate::tests::helping::{bring_over, holds, open_for};
use crate::tests::old_files::{OldFile, old_file};
use crate::tests::reporting::{desk_over, handed_back, shown};
use crate::tests::rows::{Held, Schema, held_in};
use crate::tests::using::keeps_all;
use memory_files::{ClosedFile, Session, close_failing, disk_of};
use sqlite::{Alter, Connection, Files};
use sqlite_disk::{Crash, Disk, Fuse, Memory};
use std::alloc::Global;
use std::process::Abort;
use std::test::Fail;
use tables::{MigrateFault, Migrated};

// more calls than any run here makes of one disk
pub const MOST_CALLS: u64 = 10_000;

/// The result of migration, if the file was opened at all.
type Answer = Option<Result<Migrated, MigrateFault>>;

/// The call from which a disk fails, and whether the machine or the program ends then.
#[derive(Clone, Copy)]
pub struct Stop {
    pub in_log: bool,
    pub crashes: bool,
    pub calls: u64,
}

/// The files after a crash, and whether a call failed.
#[derive(Drop)]
pub struct LeftFiles {
    log: Memory,
    db: Memory,
    pub met: bool,
}

impl LeftFiles {
    /// Opens what was left for a session, and closes it.
    pub fn open_for<R: Abort, T: Session<R>>(
        &self,
        rt: &R,
        alloc: Global,
        session: &mut T,
    ) -> Result<(), Fail> {
        open_for(rt, alloc, self.log.bytes(), self.db.bytes(), session)?;
        Ok(())
    }
}

/// The result of a migration that was stopped, if the file was opened at all, and what a crash left of it.
#[derive(Drop)]
struct Left {
    answer: Answer,
    files: LeftFiles,
}

fn has_blown<D: Disk>(disk: &mut D) -> bool {
    !disk.may_be_used() || disk.len().is_err()
}

/// Migrates a file, and records the result.
#[derive(Drop)]
struct Migration {
    answer: Answer,
}

impl<R: Abort> Session<R> for Migration {
    fn run<S: Alter + Drop>(
        &mut self,
        rt: &R,
        _alloc: Global,
        mut conn: Connection<S>,
    ) -> Result<Connection<S>, Fail> {
        self.answer = Some(bring_over(rt, &mut conn));
        Ok(conn)
    }
}

/// One session over disks with this database.
pub fn stop_once<R: Abort, T: Session<R>>(
    rt: &R,
    alloc: Global,
    bytes: &[u8],
    stop: Stop,
    session: &mut T,
) -> Result<LeftFiles, Fail> {
    let (log_calls, db_calls) = if stop.in_log {
        (stop.calls, u64::MAX)
    } else {
        (u64::MAX, stop.calls)
    };
    let log = Fuse::new(Memory::new(alloc), log_calls);
    let db = Fuse::new(disk_of(alloc, bytes)?, db_calls);
    let files = close_failing(rt, alloc, Files { log, db }, session)?;
    let Files { mut log, mut db } = files;
    let met = has_blown(&mut log) || has_blown(&mut db);
    if stop.crashes {
        log.crash();
        db.crash();
    }
    Ok(LeftFiles {
        log: disk_of(alloc, log.inner().bytes())?,
        db: disk_of(alloc, db.inner().bytes())?,
        met,
    })
}

/// One migration over disks with this database.
fn migrate_once(rt: &impl Abort, alloc: Global, bytes: &[u8], stop: Stop) -> Result<Left, Fail> {
    let mut migration = Migration { answer: None };
    let files = stop_once(rt, alloc, bytes, stop, &mut migration)?;
    Ok(Left {
        answer: migration.answer,
        files,
    })
}

/// A file, and its schema and events before it fails.
#[derive(Drop)]
struct Trial<'a> {
    bytes: &'a [u8],
    held: &'a Held<'a>,
    before: Schema,
    events: u64,
}

impl Trial<'_> {
    /// Whether the result is possible; without a failed call it must be the expected one.
    fn may_answer(&self, left: &Left) -> bool {
        let sound = match self.before {
            Schema::Old => Ok(Migrated {
                events: self.events,
            }),
            Schema::New => Err(MigrateFault::AlreadyNew),
        };
        match left.answer {
            None | Some(Err(MigrateFault::Store)) => left.files.met,
            Some(answer) => answer == sound,
        }
    }

    /// Checks the schema of the file after a crash against the result.
    fn may_be_found(&self, rt: &impl Abort, left: &Left, found: Schema) {
        holds(rt, "the answer", self.may_answer(left));
        if self.before == Schema::New || matches!(left.answer, Some(Ok(_))) {
            holds(rt, "what is new stays new", found == Schema::New);
        }
        if left.answer.is_none() {
            holds(rt, "what was not opened stays", found == self.before);
        }
    }

    /// Checks that the next migration completes the file.
    fn is_completed(&self, rt: &impl Abort, found: Schema, next: Result<Migrated, MigrateFault>) {
        let events = self.events;
        match found {
            Schema::Old => holds(rt, "completed", next == Ok(Migrated { events })),
            Schema::New => holds(rt, "complete", next == Err(MigrateFault::AlreadyNew)),
        }
    }

    /// Checks the file after a crash: it is wholly old or wholly new, and the next migration completes it.
    fn check_left(&self, rt: &impl Abort, alloc: Global, left: &Left) -> Result<Schema, Fail> {
        let mut completion = Completion {
            trial: self,
            left,
            found: None,
        };
        left.files.open_for(rt, alloc, &mut completion)?;
        Ok(completion.found.ok_or("nothing is found")?)
    }
}

/// Completes the file after a crash, and records the schema that it had before.
#[derive(Drop)]
struct Completion<'a> {
    trial: &'a Trial<'a>,
    left: &'a Left,
    found: Option<Schema>,
}

impl<R: Abort> Session<R> for Completion<'_> {
    fn run<S: Alter + Drop>(
        &mut self,
        rt: &R,
        alloc: Global,
        mut conn: Connection<S>,
    ) -> Result<Connection<S>, Fail> {
        let found = self.trial.held.is_found(rt, alloc, &mut conn)?;
        self.trial.may_be_found(rt, self.left, found);
        let next = bring_over(rt, &mut conn);
        self.trial.is_completed(rt, found, next);
        let after = self.trial.held.is_found(rt, alloc, &mut conn)?;
        holds(rt, "new", after == Schema::New);
        self.found = Some(found);
        Ok(conn)
    }
}

/// How often the file was not opened, how often a fault of migration left the old file and the new one, and how often
/// there was another result.
#[derive(Clone, Copy, Debug, PartialEq, Eq)]
struct Met {
    unopened: u32,
    old: u32,
    new: u32,
    answered: u32,
}

impl Met {
    fn count(&mut self, answer: Answer, found: Schema) {
        let count = match (answer, found) {
            (None, _) => &mut self.unopened,
            (Some(Err(MigrateFault::Store)), Schema::Old) => &mut self.old,
            (Some(Err(MigrateFault::Store)), Schema::New) => &mut self.new,
            (Some(_), _) => &mut self.answered,
        };
        *count = count.saturating_add(1);
    }
}

/// Lets each call of one disk fail in turn, or one of so many, until a run ends without meeting the fault.
fn stop_at_each_call_of(
    rt: &impl Abort,
    alloc: Global,
    trial: &Trial<'_>,
    in_log: bool,
    crashes: bool,
    every: u64,
) -> Result<Met, Fail> {
    let mut met = Met {
        unopened: 0,
        old: 0,
        new: 0,
        answered: 0,
    };
    let mut calls = 0u64;
    for _ in 0..MOST_CALLS {
        let stop = Stop {
            in_log,
            crashes,
            calls,
        };
        let left = migrate_once(rt, alloc, trial.bytes, stop)?;
        let found = trial.check_left(rt, alloc, &left)?;
        met.count(left.answer, found);
        if !left.files.met {
            return Ok(met);
        }
        calls = calls.saturating_add(every);
    }
    Err(Fail::from("no run without a fault"))
}

/// Does the same for each disk, where the program ends and where the machine crashes.
fn stop_at_each_call(
    rt: &impl Abort,
    alloc: Global,
    trial: &Trial<'_>,
    every: u64,
) -> Result<(), Fail> {
    for (in_log, crashes) in [(false, false), (false, true), (true, false), (true, true)] {
        let met = stop_at_each_call_of(rt, alloc, trial, in_log, crashes, every)?;
        assert!(rt; met.unopened > 0 && met.answered > 0, "{met:?}");
        if in_log && trial.before == Schema::Old {
            assert!(rt; met.old > 0, "{met:?}");
        }
    }
    Ok(())
}

/// The old file, migrated and closed.
pub fn migrated(rt: &impl Abort, alloc: Global, file: &OldFile) -> Result<ClosedFile, Fail> {
    let mut migration = Migration { answer: None };
    let db = open_for(rt, alloc, &[], file.bytes(), &mut migration)?;
    migration.answer.ok_or("nothing is answered")??;
    Ok(db)
}

#[test]
fn an_old_file_may_fail_at_any_call(rt: HostRuntime) -> Result<(), Fail> {
    let alloc = rt.alloc();
    let file = old_file(&rt, alloc, 1)?;
    let held = held_in(&rt, alloc, &file)?;
    let trial = Trial {
        bytes: file.bytes(),
        held: &held,
        before: Schema::Old,
        events: 37,
    };
    stop_at_each_call(&rt, alloc, &trial, 1)
}

#[test]
fn a_new_file_may_fail_at_any_call(rt: HostRuntime) -> Result<(), Fail> {
    let alloc = rt.alloc();
    let file = old_file(&rt, alloc, 1)?;
    let held = held_in(&rt, alloc, &file)?;
    let db = migrated(&rt, alloc, &file)?;
    let trial = Trial {
        bytes: db.bytes(),
        held: &held,
        before: Schema::New,
        events: 37,
    };
    stop_at_each_call(&rt, alloc, &trial, 1)
}

// every seventh call: there are hundreds, and two statements copy the items
#[test]
fn a_long_file_may_fail_at_any_call(rt: HostRuntime) -> Result<(), Fail> {
    let alloc = rt.alloc();
    let file = old_file(&rt, alloc, 120)?;
    let held = held_in(&rt, alloc, &file)?;
    let trial = Trial {
        bytes: file.bytes(),
        held: &held,
        before: Schema::Old,
        events: 4202,
    };
    stop_at_each_call(&rt, alloc, &trial, 7)
}

/// The state after a crash of the machine, where the last call of the log in a migration fails, which is its commit.
fn without_commit(rt: &impl Abort, alloc: Global, bytes: &[u8]) -> Result<Left, Fail> {
    let mut last = None;
    for calls in 0..MOST_CALLS {
        let stop = Stop {
            in_log: true,
            crashes: true,
            calls,
        };
        let left = migrate_once(rt, alloc, bytes, stop)?;
        if let Some(Ok(_)) = left.answer {
            break;
        }
        last = Some(left);
    }
    Ok(last.ok_or("no call fails")?)
}

/// Shows an old file of one round, migrates it, shows it again, and uses it.
#[derive(Drop)]
struct Shown;

impl<R: Abort> Session<R> for Shown {
    fn run<S: Alter + Drop>(
        &mut self,
        rt: &R,
        alloc: Global,
        conn: Connection<S>,
    ) -> Result<Connection<S>, Fail> {
        let opened = shown(rt, alloc, conn, 1)?;
        let mut conn = handed_back(rt, alloc, opened)?.into_store();
        let again = bring_over(rt, &mut conn);
        holds(rt, "again", again == Ok(Migrated { events: 37 }));
        let mut book = desk_over(alloc, shown(rt, alloc, conn, 1)?)?;
        keeps_all(rt, alloc, &mut book, 1)?;
        Ok(book.into_store())
    }
}

#[test]
fn a_commit_that_fails_leaves_the_old_file(rt: HostRuntime) -> Result<(), Fail> {
    let alloc = rt.alloc();
    let file = old_file(&rt, alloc, 1)?;
    let left = without_commit(&rt, alloc, file.bytes())?;
    holds(
        &rt,
        "a fault",
        left.answer == Some(Err(MigrateFault::Store)),
    );
    left.files.open_for(&rt, alloc, &mut Shown)
}
