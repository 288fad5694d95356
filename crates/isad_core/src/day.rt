//! Days.
ghost use Rattle.std.specs.Prelude.{◌≡◌, ◌≤◌, ◌+◌, ◌*◌, ◌/◌, ◌%◌, ◌∷◌, [], if◌then◌else◌};
ghost use Rattle.std.specs.Prelude.{Some, None, IfSome, IfNone, pos};
ghost use Rattle.isad_core.specs.Days.{IsDayNumber, is_day_number, number_of_date, date_of, day_of};
ghost use Rattle.isad_core.specs.Days.{day_text, in_two_digits};
ghost use Rattle.isad_core.specs.Days as spec;
ghost use Rattle.jiff_core.specs.Calendar.{IsCivilDate};

use crate::limits::{FIRST_DAY, LAST_DAY};
use jiff_core::civil::Date;
use std::marker::Model;

/// A day from 1900-01-01 to 9999-12-31. Its model is its number, counted from 1970-01-01.
#[derive(Debug, Clone, Copy, PartialEq, Eq, PartialOrd, Ord)]
pub struct Day {
    number: i32,
}

impl Model for Day {
    ghost use Rattle.std.specs.Prelude.{ℤ};
    ghost use Rattle.isad_core.specs.Days.{IsDayNumber};

    ghost Value = { ℤ };

    ghost view = { λ d. d.number };

    ghost invariant = { λ d. IsDayNumber d.number };

    ghost inverse = { λ n. record { number = n } };
}

impl Day {
    /// Parses a date in the ISO 8601 form YYYY-MM-DD, exactly ten bytes. Returns `None` if the text has another form,
    /// if the calendar has no such day, or if the day is out of range.
    pub fn parse(text: &str) -> Option<Day>
        ensures { result ≡ day_of text.now }
    {
        let &[a, b, c, d, b'-', e, f, b'-', g, h] = text.as_bytes() else {
            return None;
        };
        let century = two_digits(a, b)?;
        let rest = two_digits(c, d)?;
        let month = two_digits(e, f)?;
        let day = two_digits(g, h)?;
        on_date(century, rest, month, day)
    }

    /// The day with this number, or `None` if it is out of range.
    pub fn from_number(number: i32) -> Option<Day>
        ensures { result ≡ (if is_day_number number then Some number else None) }
    {
        if is_day(i64::from(number)) {
            Some(Day { number })
        } else {
            None
        }
    }

    /// Its number: days since 1970-01-01, negative for earlier days.
    pub fn number(self) -> i32
        ensures number { result ≡ self }
        ensures range { IsDayNumber result }
    {
        self.number
    }

    /// Its date in the ISO 8601 form YYYY-MM-DD.
    #[tactic(auto, unfolding(crate::specs::Days::day_text))]
    pub fn text(self) -> [u8; 10]
        ensures text { result ≡ day_text self }
        ensures reads_back { day_of (day_text self) ≡ Some self }
    {
        let (year, month, day) = civil(self.number);
        let (a, b) = digits((year / 100) as u8);
        let (c, d) = digits((year % 100) as u8);
        let (e, f) = digits(month);
        let (g, h) = digits(day);
        [a, b, c, d, b'-', e, f, b'-', g, h]
    }
}

/// Whether it is the number of a day of the calendar, from 1900-01-01 to 9999-12-31.
pub fn is_day(number: i64) -> bool
    ensures { result ≡ is_day_number number }
{
    FIRST_DAY <= number && number <= LAST_DAY
}

/// The value of an ASCII digit, or `None` if the byte is no digit.
fn digit(byte: u8) -> Option<u8>
    ensures value { result ≡ spec.digit byte }
{
    if byte.is_ascii_digit() {
        Some(byte - b'0')
    } else {
        None
    }
}

/// The number that two ASCII digits write, or `None` if a byte is no digit.
fn two_digits(high: u8, low: u8) -> Option<u8>
    ensures value { result ≡ spec.two_digits high low }
    ensures bound { IfSome result (λ n. n ≤ 99) }
{
    let high = digit(high)?;
    let low = digit(low)?;
    Some(high * 10 + low)
}

/// The date, if the calendar has it.
fn calendar_date(century: u8, rest: u8, month: u8, day: u8) -> Option<Date>
    requires century { century ≤ 99 }
    requires rest { rest ≤ 99 }
    requires month { month ≤ 99 }
    requires day { day ≤ 99 }
    ensures some { IfSome result (λ d.
        (d.year ≡ pos (century * 100 + rest)) × (d.month ≡ month) × (d.day ≡ day)) }
    ensures none { IfNone result (IsCivilDate (pos (century * 100 + rest)) month day → ⊥) }
{
    let year = century as u16 * 100 + rest as u16;
    Date::new(year as i16, month as i8, day as i8).ok()
}

/// The day of this date, if the calendar has it and it is in range.
fn on_date(century: u8, rest: u8, month: u8, day: u8) -> Option<Day>
    requires century { century ≤ 99 }
    requires rest { rest ≤ 99 }
    requires month { month ≤ 99 }
    requires day { day ≤ 99 }
    ensures { result ≡ number_of_date (century * 100 + rest) month day }
{
    match calendar_date(century, rest, month, day) {
        Some(date) => Day::from_number(date.to_unix_epoch_day()),
        None => None,
    }
}

/// The year, the month, and the day of the month, for the day with this number.
fn civil(number: i32) -> (u16, u8, u8)
    requires { IsDayNumber number }
    ensures date { record { year = result.0; month = result.1; day = result.2 } ≡ date_of number }
    ensures year { result.0 ≤ 9999 }
    ensures month { result.1 ≤ 12 }
    ensures day { result.2 ≤ 31 }
{
    let Ok(date) = Date::from_unix_epoch_day(i64::from(number)) else {
        unreachable!()
    };
    (date.year as u16, date.month, date.day)
}

/// The two ASCII digits of a number below 100.
fn digits(n: u8) -> (u8, u8)
    requires { n ≤ 99 }
    ensures { result.0 ∷ result.1 ∷ [] ≡ in_two_digits n }
{
    (b'0' + n / 10, b'0' + n % 10)
}
