//! What no clause says: what a terminal is shown, while the clock goes on by one second at each look.
use program_ends::{Meter, Watched};
use std::cell::Cell;
use std::io::{self, Read};
use std::time::{Clock, Duration};

/// A clock that goes on by one second at each look, and fails after some looks.
#[derive(Drop)]
struct Seconds {
    looks: Cell<u64>,
    good: u64,
}

impl Seconds {
    fn failing_after(good: u64) -> Seconds {
        Seconds {
            looks: Cell::new(0),
            good,
        }
    }
}

impl Clock for Seconds {
    fn monotonic(&self) -> io::Result<Duration> {
        let look = self.looks.get();
        self.looks.set(look.saturating_add(1));
        if look < self.good {
            Ok(Duration::from_secs(look))
        } else {
            Err(io::Error::from(io::ErrorKind::Other))
        }
    }

    fn since_1970(&self) -> io::Result<Duration> {
        self.monotonic()
    }
}

/// Gives four bytes at a read.
#[derive(Drop)]
struct Fours<'a> {
    left: &'a [u8],
}

impl Read for Fours<'_> {
    fn read(&mut self, buffer: &mut [u8]) -> io::Result<usize> {
        let count = self.left.len().min(buffer.len()).min(4);
        buffer[..count].copy_from_slice(&self.left[..count]);
        self.left = &self.left[count..];
        Ok(count)
    }
}

const AWAY: &str = "                                                \r";

// the input, after how many looks the clock fails, what the terminal is shown
#[rattlefmt::skip]
const SHOWN: [(&str, &str, u64, &str); 5] = [
    ("no input",               "",                  9, ""),
    ("one read",               "a\nb",              9, "desk: lines read: 1\r"),
    ("three reads",            "one\ntwo\n\n\n\nx", 9, "desk: lines read: 1\rdesk: lines read: 2\rdesk: lines read: 5\r"),
    ("a clock that stops",     "one\ntwo\nend\n",   2, "desk: lines read: 1\r"),
    ("a clock that never ran", "one\ntwo\nend\n",   0, ""),
];

#[test]
fn a_terminal_is_shown_the_lines_of_each_second(rt: HostRuntime) {
    for (case, input, good, expected) in SHOWN {
        let clock = Seconds::failing_after(good);
        // a terminal never runs out of memory, which nobody would be told
        let mut terminal = Vec::with_capacity(rt.alloc(), 200).expect(&rt, "memory");
        let mut given = Vec::new(rt.alloc());
        let mut watched = Watched::new(
            &clock,
            Fours {
                left: input.as_bytes(),
            },
            Some(&mut terminal),
        );
        watched.read_to_end(&mut given).expect(&rt, "memory");
        assert_eq!(rt; given.as_slice(), input.as_bytes(), "{case}: what is read");
        let shown = terminal.as_slice();
        let (text, away) = shown.split_at(shown.len().min(expected.len()));
        assert_eq!(rt; text, expected.as_bytes(), "{case}: what is shown");
        let last = if expected.is_empty() { "" } else { AWAY };
        assert_eq!(rt; away, last.as_bytes(), "{case}: what takes it away");
    }
}

// what comes at once, and how many lines there are then
#[rattlefmt::skip]
const LINES: [(&str, &str, u64); 4] = [
    ("nothing",             "",       0),
    ("a line without its end", "one", 0),
    ("a line",              "one\n",  1),
    ("two empty lines",     "\n\n",   2),
];

#[test]
fn lines_are_counted_by_their_ends(rt: HostRuntime) {
    for (case, input, expected) in LINES {
        let mut meter = Meter::new();
        meter.count(input.as_bytes());
        assert_eq!(rt; meter.lines, expected, "{case}");
        meter.count(input.as_bytes());
        assert_eq!(rt; meter.lines, 2 * expected, "{case}, twice");
    }
    let mut full = Meter {
        lines: u64::MAX,
        second: 0,
    };
    full.count(b"\n\n");
    assert_eq!(rt; full.lines, u64::MAX, "no more than can be counted");
}
