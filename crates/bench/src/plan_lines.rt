//! How fast a plan line is read, compared with a plain split of the same text.
use plan::Plan;
use std::alloc::{AllocError, Global};
use std::io::{self, ErrorKind};
use std::time::{Clock, Duration, Instant};

/// How often a line is read before the clock is read again.
const ROUNDS: u32 = 500;

/// How often both are timed. The shortest time of each counts, to reduce the influence of other work on the machine.
const TRIALS: u32 = 15;

/// The longest option there is.
const OPTION: &str = "C/SUPPLIER/PRODUCT1/2030-06-01/60/50";

/// The time to read, and to split, a line `ROUNDS` times.
#[derive(Clone, Copy)]
struct Times {
    read: Duration,
    split: Duration,
}

/// Prints a row for each length of line.
pub(crate) fn compare(rt: &(impl Clock + Print + AllocGlobal)) -> io::Result<()> {
    println!(rt; "steps bytes reads/s splits/s ratio")?;
    for steps in [6u8, 12, 24] {
        let line = longest_line(rt.alloc(), steps)?;
        let times = shortest_times(rt, line.as_str())?;
        let bytes = line.len();
        let reads = f64::from(ROUNDS) / times.read.as_secs_f64();
        let splits = f64::from(ROUNDS) / times.split.as_secs_f64();
        let ratio = reads / splits;
        println!(rt; "{steps} {bytes} {reads:.0} {splits:.0} {ratio:.3}")?;
    }
    Ok(())
}

/// The longest line of so many steps: each has eight options, and all but the last are marked.
fn longest_line(alloc: Global, steps: u8) -> Result<String, AllocError> {
    let mut line = String::new(alloc);
    for step in 0..steps {
        if step > 0 {
            line.push_str("*;")?;
        }
        line.push_str(OPTION)?;
        for _ in 1..8 {
            line.push_str("|")?;
            line.push_str(OPTION)?;
        }
    }
    line.push_str("!9")?;
    Ok(line)
}

/// The shortest times of all trials.
fn shortest_times(rt: &(impl Clock + AllocGlobal), line: &str) -> io::Result<Times> {
    let mut shortest = measure(rt, line)?;
    for _ in 1..TRIALS {
        let next = measure(rt, line)?;
        shortest = Times {
            read: shortest.read.min(next.read),
            split: shortest.split.min(next.split),
        };
    }
    Ok(shortest)
}

/// The times of one trial. The counts are compared, so that no round can be optimized away.
fn measure(rt: &(impl Clock + AllocGlobal), line: &str) -> io::Result<Times> {
    let start = Instant::now(rt)?;
    let mut steps = 0usize;
    for _ in 0..ROUNDS {
        steps = steps.wrapping_add(count_steps(rt.alloc(), line)?);
    }
    let read = start.elapsed(rt)?;
    let start = Instant::now(rt)?;
    let mut parts = 0usize;
    for _ in 0..ROUNDS {
        parts = parts.wrapping_add(count_parts(line));
    }
    let split = start.elapsed(rt)?;
    // eight options of six parts a step
    if parts == steps.wrapping_mul(48) {
        Ok(Times { read, split })
    } else {
        Err(io::Error::from(ErrorKind::InvalidData))
    }
}

/// Reads the line as a plan, and returns how many steps it has.
fn count_steps(alloc: Global, line: &str) -> io::Result<usize> {
    match Plan::from_line(alloc, line) {
        Ok(plan) => Ok(plan.steps()),
        Err(_) => Err(io::Error::from(ErrorKind::InvalidData)),
    }
}

/// Splits the line at `;`, `|` and `/`, and returns how many parts there are.
fn count_parts(line: &str) -> usize {
    let mut parts = 0usize;
    for step in line.split(';') {
        for option in step.split('|') {
            for _part in option.split('/') {
                parts = parts.wrapping_add(1);
            }
        }
    }
    parts
}
