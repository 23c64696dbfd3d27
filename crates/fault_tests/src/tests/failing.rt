//! Files in memory that fail from some call on, and what is left of them.
use crate::tests::helping::holds;
use memory_files::{ClosedFile, Session, close_failing, disk_of, leave_failing};
use sqlite::Files;
use sqlite_disk::{Crash, Disk, Fuse, Memory};
use std::alloc::Global;
use std::process::Abort;
use std::test::Fail;

// more calls than any run here makes of one file
const MOST_CALLS: u64 = 10_000;

/// How a run ends: the program closes the database, or is killed; or the machine crashes, and only what was synced is
/// left.
#[derive(Clone, Copy)]
pub enum End {
    Closed,
    Killed,
    Crashed,
}

/// The call of the log or of the database from which each call of it fails, and how the run ends.
#[derive(Clone, Copy)]
pub struct Stop {
    pub calls: u64,
    pub in_log: bool,
    pub end: End,
}

impl Stop {
    /// No call fails.
    pub fn none(end: End) -> Stop {
        Stop {
            calls: u64::MAX,
            in_log: false,
            end,
        }
    }
}

/// The files after a run, and whether a call failed.
#[derive(Drop)]
pub struct Left {
    log: Memory,
    db: Memory,
    pub met: bool,
}

impl Left {
    /// Files without a byte.
    pub fn new(alloc: Global) -> Left {
        Left {
            log: Memory::new(alloc),
            db: Memory::new(alloc),
            met: false,
        }
    }

    /// Opens files that do not fail, with these bytes, for a session, and closes them.
    pub fn open_for<R: Abort, T: Session<R>>(
        &self,
        rt: &R,
        alloc: Global,
        session: &mut T,
    ) -> Result<(), Fail> {
        let files = ClosedFile::of(alloc, self.log.bytes(), self.db.bytes())?;
        files.open_for(rt, alloc, session)?;
        Ok(())
    }

    /// Opens files that fail, with these bytes, for a session. Returns what is left of them.
    pub fn open_failing<R: Abort, T: Session<R>>(
        &self,
        rt: &R,
        alloc: Global,
        stop: Stop,
        session: &mut T,
    ) -> Result<Left, Fail> {
        let (log_calls, db_calls) = if stop.in_log {
            (stop.calls, u64::MAX)
        } else {
            (u64::MAX, stop.calls)
        };
        let log = Fuse::new(disk_of(alloc, self.log.bytes())?, log_calls);
        let db = Fuse::new(disk_of(alloc, self.db.bytes())?, db_calls);
        let files = Files { log, db };
        let files = match stop.end {
            End::Closed => close_failing(rt, alloc, files, session)?,
            End::Killed | End::Crashed => leave_failing(rt, alloc, files, session)?,
        };
        left_of(alloc, files, stop.end)
    }
}

fn has_blown<D: Disk>(disk: &mut D) -> bool {
    !disk.may_be_used() || disk.len().is_err()
}

/// What is left of files.
fn left_of(alloc: Global, files: Files<Fuse<Memory>>, end: End) -> Result<Left, Fail> {
    let Files { mut log, mut db } = files;
    let met = has_blown(&mut log) || has_blown(&mut db);
    if matches!(end, End::Crashed) {
        log.crash();
        db.crash();
    }
    Ok(Left {
        log: disk_of(alloc, log.inner().bytes())?,
        db: disk_of(alloc, db.inner().bytes())?,
        met,
    })
}

/// What is tried with a file that fails at each of its calls in turn.
pub trait Trial<R> {
    /// One run over files that fail, and the checks after it. Returns whether a call failed.
    fn stop_once(&mut self, rt: &R, alloc: Global, stop: Stop) -> Result<bool, Fail>;
}

/// Lets each call of one file fail in turn, until a run ends without meeting the fault.
pub fn stop_at_each_call<R: Abort, T: Trial<R>>(
    rt: &R,
    alloc: Global,
    trial: &mut T,
    in_log: bool,
    end: End,
) -> Result<(), Fail> {
    let mut met = true;
    for calls in 0..MOST_CALLS {
        met = trial.stop_once(rt, alloc, Stop { calls, in_log, end })?;
        if !met {
            break;
        }
    }
    holds(rt, "a run without a fault", !met);
    Ok(())
}
