//! The columns of the line of a cell. Each is written over the blanks that the line has after the columns before it.
ghost use Rattle.std.specs.Prelude.{◌≡◌, ◌+◌, ◌≤◌, length, decimal, IsTrue};
ghost use Rattle.allotment.specs.Limits.{is_night};
ghost use Rattle.allotment.specs.Nights.{night_text};
ghost use Rattle.reports.specs.Columns.{PutsDigits, PutsText};

use allotment::{Night, NightDate};
use itoa::write_digits;

/// Writes a text that begins at this place.
pub(crate) fn put_text(line: &mut [u8], at: usize, text: &[u8])
    requires room { at + length text.now ≤ length line.old }

    ensures text { PutsText line.old line.new at text.now }

    ensures same { length line.new ≡ length line.old }
{
    line[at..at + text.len()].copy_from_slice(text);
}

/// Writes a number in decimal digits, the last of which comes before this place.
pub(crate) fn put_number(line: &mut [u8], end: usize, number: u32)
    requires room { length (decimal number) ≤ end }
    requires within { end ≤ length line.old }

    ensures number { PutsDigits line.old line.new end (decimal number) }

    ensures same { length line.new ≡ length line.old }
{
    write_digits(u64::from(number), line, end);
}

/// The text of a night, as `2030-06-01`.
pub(crate) fn night_digits(night: Night) -> [u8; 10]
    ensures text { result ≡ night_text night }
    ensures limits { IsTrue (is_night night) }
{
    let NightDate { year, month, day } = night.date();
    [
        b'2',
        b'0',
        b'0' + year / 10,
        b'0' + year % 10,
        b'-',
        b'0' + month / 10,
        b'0' + month % 10,
        b'-',
        b'0' + day / 10,
        b'0' + day % 10,
    ]
}
