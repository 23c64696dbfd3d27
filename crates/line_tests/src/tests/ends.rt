//! Exit statuses, and what is written at an end.
use crate::tests::desks::{holds, reads};
use command_line::JobFault;
use commands::Refusal;
use program_ends::{End, ProgramFault};
use recovery::ServeFault;
use std::alloc::{AllocError, Global};
use std::process::Abort;
use std::test::Fail;

/// More bytes than any end prints.
const ROOM: usize = 100;

/// What is printed for the fault `ProgramFault::Memory`.
const OUT_OF_MEMORY: &str = "fault 17 Memory\n";

/// Stops the test if an end has another status, or prints other texts on standard output or standard error. An end that is
/// out of memory prints that fault alone, and ends the test.
fn tells(
    rt: &impl Abort,
    alloc: Global,
    end: &End,
    status: u8,
    on_out: &str,
    on_err: &str,
) -> Result<(), Fail> {
    let mut out = Vec::with_capacity(alloc, ROOM)?;
    let mut err = Vec::with_capacity(alloc, ROOM)?;
    holds(rt, on_err, end.tell(alloc, &mut out, &mut err) == status);
    if on_err.is_empty() && err.as_slice() == OUT_OF_MEMORY.as_bytes() {
        holds(rt, "no refusal is printed", out.is_empty() && status == 1);
        return Err(Fail::from(AllocError));
    }
    reads(rt, "standard output", out.as_slice(), on_out);
    reads(rt, "standard error", err.as_slice(), on_err);
    Ok(())
}

// each fault, with its number, its name and its line
#[rattlefmt::skip]
const FAULTS: [(ProgramFault, u8, &str, &str); 8] = [
    (ProgramFault::Memory,        17, "Memory", "fault 17 Memory\n"),
    (ProgramFault::Store,         18, "Store",  "fault 18 Store\n"),
    (ProgramFault::OpeningStore,  21, "Store",  "fault 21 Store\n"),
    (ProgramFault::OpeningMemory, 22, "Memory", "fault 22 Memory\n"),
    (ProgramFault::Read,          24, "Read",   "fault 24 Read\n"),
    (ProgramFault::Write,         25, "Write",  "fault 25 Write\n"),
    (ProgramFault::File,          26, "File",   "fault 26 File\n"),
    (ProgramFault::Net,           27, "Net",    "fault 27 Net\n"),
];

#[test]
fn a_fault_is_told_on_standard_error(rt: HostRuntime) -> Result<(), Fail> {
    for &(fault, number, name, line) in &FAULTS {
        holds(&rt, line, fault.number() == number && fault.name() == name);
        tells(&rt, rt.alloc(), &End::Fault(fault), 1, "", line)?;
    }
    Ok(())
}

#[rattlefmt::skip]
const RUN_FAULTS: [(ServeFault, ProgramFault); 4] = [
    (ServeFault::Memory, ProgramFault::Memory),
    (ServeFault::Store,  ProgramFault::Store),
    (ServeFault::Read,   ProgramFault::Read),
    (ServeFault::Write,  ProgramFault::Write),
];

#[test]
fn a_fault_of_a_run_is_one_of_the_program(rt: HostRuntime) {
    for &(served, told) in &RUN_FAULTS {
        holds(&rt, told.name(), ProgramFault::from(served) == told);
    }
}

#[test]
fn the_other_ends_have_their_status(rt: HostRuntime) -> Result<(), Fail> {
    let alloc = rt.alloc();
    let usage = "Usage: desk <COMMAND>\n";
    let refused = End::Refused(Refusal::AlreadyNew);
    let misused = End::from(JobFault::Usage(String::from_str(alloc, usage)?));
    tells(&rt, alloc, &End::Done, 0, "", "")?;
    tells(&rt, alloc, &refused, 1, "refused 23 AlreadyNew\n", "")?;
    let memory = End::from(JobFault::Memory);
    tells(&rt, alloc, &memory, 1, "", OUT_OF_MEMORY)?;
    tells(&rt, alloc, &misused, 2, "", usage)
}

#[test]
fn a_refusal_that_cannot_be_written_is_a_fault(rt: HostRuntime) -> Result<(), Fail> {
    let mut room = [0u8; 4];
    let mut out = room.as_mut_slice();
    let mut err = Vec::with_capacity(rt.alloc(), ROOM)?;
    let status = End::Refused(Refusal::AlreadyNew).tell(rt.alloc(), &mut out, &mut err);
    holds(&rt, "the status", status == 1);
    if err.as_slice() == OUT_OF_MEMORY.as_bytes() {
        return Err(Fail::from(AllocError));
    }
    reads(&rt, "standard error", err.as_slice(), "fault 25 Write\n");
    Ok(())
}
