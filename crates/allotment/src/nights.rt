//! Nights, as days of the Gregorian calendar, and their texts.
ghost use Rattle.std.specs.Prelude.{◌≡◌, ◌≤◌, pos, IsTrue, MatchOption};
ghost use Rattle.jiff_core.specs.Date.{epoch_day};
ghost use Rattle.allotment.specs.Limits.{is_night};
ghost use Rattle.allotment.specs.Nights.{night_in};
ghost use Rattle.allotment.specs.Dates.{IsNoPair, IsPair, IsNoDate, IsDateText};

use crate::wants::Bad;
use jiff_core::civil::Date;
use jiff_fmt::temporal::DateTimePrinter;
use std::alloc::{AllocError, Global};
use std::fmt;
use std::marker::Model;

/// 2000-01-01.
const FIRST: i32 = 10957;

/// 2099-12-31.
const LAST: i32 = 47481;

/// The date of a night.
#[derive(Clone, Copy, Debug, PartialEq, Eq)]
pub struct NightDate {
    /// From 0 on at 2000.
    pub year: u8,
    /// 1 to 12.
    pub month: u8,
    /// 1 to 31.
    pub day: u8,
}

/// A night: a day from 2000-01-01 to 2099-12-31. To a contract it is the number of the day, from 1970-01-01 as 0.
#[derive(Clone, Copy, Debug, PartialEq, Eq)]
pub struct Night {
    day: u32,
}

impl Model for Night {
    ghost use Rattle.std.specs.Prelude.{ℕ, IsTrue};

    ghost Value = { ℕ };

    ghost use Rattle.allotment.specs.Limits.{is_night};

    ghost view = { λ a. a.day };

    ghost invariant = { λ a. IsTrue (is_night a.day) };

    ghost inverse = { λ day. record { day = day } };
}

impl Night {
    ghost use Rattle.std.specs.Prelude.{◌≡◌, ◌≤◌, IfOk, IsTrue, string_bytes};
    ghost use Rattle.std.specs.Option.{ok_or};
    ghost use Rattle.allotment.specs.Limits.{is_night};
    ghost use Rattle.allotment.specs.Nights.{date_of, night_in, night_text};
    ghost use Rattle.allotment.specs.Texts.{keep_if};

    /// Reads a night from `YYYY-MM-DD` (ISO 8601, calendar date). The fault is always `Bad::Night`.
    pub fn parse(text: &str) -> Result<Night, Bad>
        ensures { result ≡ ok_or (night_in text.now) Bad.Night }
    {
        match day_of(text) {
            Some(day) => Ok(Night { day }),
            None => Err(Bad::Night),
        }
    }

    /// The night with this day number, counted from 1970-01-01 as 0. Returns `None` for a day that is no night.
    pub fn from_day(day: u32) -> Option<Night>
        ensures { result ≡ keep_if is_night day }
    {
        if FIRST as u32 <= day && day <= LAST as u32 {
            Some(Night { day })
        } else {
            None
        }
    }

    /// The night with this day number. The precondition says that there is one.
    pub(crate) fn of_day(day: u32) -> Night
        requires { IsTrue (is_night day) }
        ensures { result ≡ day }
    {
        Night { day }
    }

    /// The day number, counted from 1970-01-01 as 0: 10,957 to 47,481.
    pub fn day(&self) -> u32
        ensures number { result ≡ self.now }
        ensures limits { IsTrue (is_night self.now) }
    {
        self.day
    }

    /// The date of the night.
    pub fn date(&self) -> NightDate
        ensures year { result.year ≡ (date_of self.now).0 }
        ensures month { result.month ≡ (date_of self.now).1.0 }
        ensures day { result.day ≡ (date_of self.now).1.1 }
        ensures century { result.year ≤ 99 }
        ensures year_long { result.month ≤ 12 }
        ensures from_one { 1 ≤ result.day }
        ensures month_long { result.day ≤ 31 }
    {
        let date = calendar_date(*self);
        NightDate {
            year: (date.year - 2000) as u8,
            month: date.month,
            day: date.day,
        }
    }

    /// The text of the night, `YYYY-MM-DD`. The only fault is out of memory.
    pub fn text(&self, alloc: Global) -> Result<String, AllocError>
        ensures { IfOk result (λ text. string_bytes text ≡ night_text self.now) }
    {
        format!(in alloc; "{self}")
    }
}

impl fmt::Display for Night {
    ghost use Rattle.std.specs.Prelude.{Some};
    ghost use Rattle.allotment.specs.Nights.{night_text};

    ghost output = { λ night. Some (night_text night) };

    fn fmt<W: fmt::Write>(&self, f: &mut fmt::Formatter<W>) -> fmt::Result {
        f.write_str(
            DateTimePrinter::new()
                .date_text(calendar_date(*self))
                .as_str(),
        )
    }
}

/// The date that the calendar has for a night.
fn calendar_date(night: Night) -> Date
    ensures day { epoch_day result ≡ pos night }
    ensures night { IsTrue (is_night night) }
{
    match Date::from_unix_epoch_day(i64::from(night.day())) {
        Ok(date) => date,
        Err(_) => unreachable!(),
    }
}

/// The day number of the night that a text spells.
fn day_of(text: &str) -> Option<u32>
    ensures { result ≡ night_in text.now }
{
    let (year, month, day) = date_in(text.as_bytes())?;
    let Ok(date) = Date::new(year as i16, month as i8, day as i8) else {
        return None;
    };
    let day = date.to_unix_epoch_day();
    if day < FIRST || day > LAST {
        return None;
    }
    Some(day as u32)
}

/// The year, the month and the day whose digits stand in the text as in `YYYY-MM-DD`, whether the calendar has them or
/// not.
fn date_in(text: &[u8]) -> Option<(u16, u8, u8)>
    ensures { MatchOption result (IsNoDate text.now) (λ p. IsDateText text.now p.0 p.1 p.2) }
{
    if text.len() != 10 || text[4] != b'-' || text[7] != b'-' {
        return None;
    }
    let century = two_in(text[0], text[1])?;
    let year = two_in(text[2], text[3])?;
    let month = two_in(text[5], text[6])?;
    let day = two_in(text[8], text[9])?;
    Some((100 * century as u16 + year as u16, month, day))
}

/// The number whose two digits these are.
fn two_in(tens: u8, ones: u8) -> Option<u8>
    ensures { MatchOption result (IsNoPair tens ones) (IsPair tens ones) }
{
    if tens.is_ascii_digit() && ones.is_ascii_digit() {
        Some(10 * (tens - b'0') + (ones - b'0'))
    } else {
        None
    }
}
