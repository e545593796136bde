// The layouts of time strings: which error a string has that does not fit, and the checks of a clock time that every
// format shares.
#![tactic(auto)]

ghost use Rattle.std.specs.Prelude.{◌≡◌, length, cond, false, nat_eq};
ghost use Rattle.clock_time.specs.Reading.{answer_of};
ghost use Rattle.clock_time.specs.Errors.{error_number, checked};
ghost use Rattle.layout.specs.Layout.{pattern_place, patterned, offence, found, layout_error};
ghost use Rattle.layout.specs.Text.{supported_day, clock_checks, clock_digits};
ghost use Rattle.calendar.specs.Date.{with_weekday};

pub mod format;
mod place;

use clock_time::{ClockTime, Error};
use gregorian::{FIRST_YEAR, LAST_YEAR};
use place::Place;

// Whether a byte at a place of a pattern offends with this error.
fn offends(error: Error, p: u8, b: u8) -> bool
    ensures { result ≡ nat_eq (offence (pattern_place p) b) (error_number error) }
{
    let place = Place::of(p);
    if place.allows(b) {
        return false;
    }
    place.error() == error
}

// Whether some byte offends with this error.
fn is_found(error: Error, pattern: &[u8], s: &[u8]) -> bool
    requires { length pattern.now ≡ length s.now }
    ensures { result ≡ found (error_number error) (patterned pattern.now) s.now }
{
    pattern.iter().zip(s).any(|(&p, &b)| offends(error, p, b))
}

// The error of a string that does not fit the layout of a pattern: the first that holds of Length (1), FixedByte (2),
// NotDigit (3) and FlagLetter (4).
#[tactic(auto, using(crate::proofs::LayoutLaws::length_patterned), unfolding(crate::specs::Layout::layout_error))]
pub fn layout_error(pattern: &[u8], s: &[u8]) -> Error
    ensures { error_number result ≡ layout_error (patterned pattern.now) s.now }
{
    if pattern.len() != s.len() {
        return Error::Length;
    }
    if is_found(Error::FixedByte, pattern, s) {
        return Error::FixedByte;
    }
    if is_found(Error::NotDigit, pattern, s) {
        return Error::NotDigit;
    }
    Error::FlagLetter
}

// The clock time. Refuses with the first that holds of NoSuchDate (5), NoSuchTime (6) and Weekday (7); `mismatch` is a
// further reason for NoSuchTime.
// `mismatch` is a flag, since the definition `clock_checks` takes it; the years are arguments of the date's test, since
// a caller may name them one day.
#[tactic(auto, unfolding(crate::specs::Text::supported_day, crate::specs::Text::clock_checks))]
pub fn check_clock(t: ClockTime, mismatch: bool) -> Result<ClockTime, Error>
    ensures { answer_of result ≡ checked (clock_checks (supported_day t) t mismatch) t }
{
    if !gregorian::is_supported_date(FIRST_YEAR, LAST_YEAR, t.date()) {
        return Err(Error::NoSuchDate);
    }
    if !calendar::time_of_day::time_exists(t.hour, t.minute, t.second, t.utc_offset) | mismatch {
        return Err(Error::NoSuchTime);
    }
    if (1 <= t.weekday) & (t.weekday <= 7) {
        return Ok(t);
    }
    Err(Error::Weekday)
}

// The clock time with the weekday of its date, for a format that sends none. Refuses with NoSuchDate (5) if the date is
// not one of 1970 to 2069, then with NoSuchTime (6). Just such a date has no weekday, so that it is looked at once.
// Not `check_clock`: the weekday is worked out here, and its 0 is the test of the date.
#[inline(always)]
pub fn check_without_weekday(t: ClockTime) -> Result<ClockTime, Error>
    ensures { answer_of result ≡ checked (clock_checks (supported_day t) (with_weekday t) false) (with_weekday t) }
{
    let dated = calendar::date::with_weekday(t);
    if dated.weekday == 0 {
        return Err(Error::NoSuchDate);
    }
    if !calendar::time_of_day::time_exists(t.hour, t.minute, t.second, t.utc_offset) {
        return Err(Error::NoSuchTime);
    }
    Ok(dated)
}

// The letter if `on`, else the other byte.
pub fn letter_or(on: bool, letter: u8, other: u8) -> u8
    ensures { result ≡ cond on letter other }
{
    if on { letter } else { other }
}

// The letter if `on`, else a blank.
pub fn letter_if(on: bool, letter: u8) -> u8
    ensures { result ≡ cond on letter 32 }
{
    letter_or(on, letter, b' ')
}

// The last two digits of each number of date and time, as every line that is written has them.
#[derive(Clone, Copy)]
pub struct ClockDigits {
    pub year: [u8; 2],
    pub month: [u8; 2],
    pub day: [u8; 2],
    pub hour: [u8; 2],
    pub minute: [u8; 2],
    pub second: [u8; 2],
}

// The last two digits of year, month, day, hour, minute and second.
#[tactic(auto, unfolding(crate::specs::Text::clock_digits))]
pub fn clock_digits(t: ClockTime) -> ClockDigits
    ensures { result ≡ clock_digits t }
{
    ClockDigits {
        year: decimal::two_digits(u32::from(t.year)),
        month: decimal::two_digits(u32::from(t.month)),
        day: decimal::two_digits(u32::from(t.day)),
        hour: decimal::two_digits(u32::from(t.hour)),
        minute: decimal::two_digits(u32::from(t.minute)),
        second: decimal::two_digits(u32::from(t.second)),
    }
}
