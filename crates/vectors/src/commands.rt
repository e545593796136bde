// The commands, by their names and the types of their numbers.
use crate::digit_run;
use crate::recordings::{Change, Lent, Sheet};
use crate::strings::MINUTE;
use clock_time::Date;
use std::str;

// What is no number counts as this. Only `write` takes numbers so large.
const NO_NUMBER: u64 = 10_000_000_000_000_000_000;

// A command, with its numbers in the order of the line.
#[derive(Clone, Copy)]
pub enum Command<'a> {
    Error(u8),
    Leap(u16),
    Year(u8),
    Month(u16, u8),
    Date(Date),
    Day(Date),
    Weekday(Date),
    Time(u8, u8, u8, i16),
    Unix([i32; 14]),
    Read(u8),
    Kind,
    Trimble,
    Write(&'a [u64]),
    Digits,
    Number(u64, usize, usize),
    Run,
    Outcome(u32),
    At(usize, usize),
    Fill(Lent),
    Correct(Change, Sheet),
}

fn magnitude(digits: &[u8]) -> u64 {
    match digits {
        [] => NO_NUMBER,
        _ => digit_run::read_digits(digits).unwrap_or(NO_NUMBER),
    }
}

// The number that a word is: digits, after a minus sign or none. Below zero it is the two's complement.
pub fn number_of(word: &[u8]) -> u64 {
    match word {
        [b'-', digits @ ..] => magnitude(digits).wrapping_neg(),
        _ => magnitude(word),
    }
}

// The number as one of a type, if it fits.
fn to<T: TryFrom<u64>>(number: &u64) -> Option<T>
where
    T::Error: Drop,
{
    T::try_from(*number).ok()
}

fn to_i16(number: &u64) -> Option<i16> {
    i16::try_from(number.cast_signed()).ok()
}

fn to_u64(number: &u64) -> Option<u64> {
    Some(*number).filter(|number| *number < NO_NUMBER)
}

fn to_usize(number: &u64) -> Option<usize> {
    to_u64(number).map(|number| number as usize)
}

// The low 32 bits.
fn to_u32(number: &u64) -> Option<u32> {
    to_u64(number).map(|number| (number % 4294967296) as u32)
}

// The word's last eight bytes, without the zero bytes before them: no more of a word counts. Names are text.
fn name_of(word: &[u8]) -> &str {
    let last = word.last_chunk::<8>().map_or(word, |last| last.as_slice());
    let zeros = last.iter().take_while(|b| **b == 0).count();
    str::from_utf8(&last[zeros..]).unwrap_or("")
}

fn to_date(year: &u64, month: &u64, day: &u64) -> Option<Date> {
    Some(Date {
        year: to(year)?,
        month: to(month)?,
        day: to(day)?,
    })
}

// The first numbers of a reading, and zeros for the rest.
fn unix(numbers: &[u64]) -> Option<[i32; 14]> {
    let [year, month, day, weekday, hour, minute, second, offset] = numbers else {
        return None;
    };
    let small = |number: &u64| to::<u8>(number).map(i32::from);
    Some([
        i32::from(to::<u16>(year)?),
        small(month)?,
        small(day)?,
        small(weekday)?,
        small(hour)?,
        small(minute)?,
        small(second)?,
        i32::from(to_i16(offset)?),
        0,
        0,
        0,
        0,
        0,
        0,
    ])
}

fn correct(numbers: &[u64], sheet: Sheet) -> Option<Command<'_>> {
    let [marks, outcomes, place, mark] = numbers else {
        return None;
    };
    let lent = Lent {
        marks: to_usize(marks)?,
        outcomes: to_usize(outcomes)?,
    };
    let change = Change {
        lent,
        place: to_usize(place)?,
        mark: to(mark)?,
    };
    Some(Command::Correct(change, sheet))
}

fn mend(numbers: &[u64]) -> Option<Command<'_>> {
    let [numbers @ .., at, outcome] = numbers else {
        return None;
    };
    let sheet = Sheet::Mended(to_usize(at)?, to_u32(outcome)?);
    correct(numbers, sheet)
}

impl<'a> Command<'a> {
    // The command with this name and these numbers, if there is one. `write` takes any numbers.
    pub fn parse(word: &[u8], numbers: &'a [u64]) -> Option<Command<'a>> {
        Some(match (name_of(word), numbers) {
            ("error", [place]) => Command::Error(to(place)?),
            ("leap", [year]) => Command::Leap(to(year)?),
            ("year", [digits]) => Command::Year(to(digits)?),
            ("month", [year, month]) => Command::Month(to(year)?, to(month)?),
            ("date", [year, month, day]) => Command::Date(to_date(year, month, day)?),
            ("day", [year, month, day]) => Command::Day(to_date(year, month, day)?),
            ("weekday", [year, month, day]) => Command::Weekday(to_date(year, month, day)?),
            ("time", [hour, minute, second, offset]) => {
                Command::Time(to(hour)?, to(minute)?, to(second)?, to_i16(offset)?)
            }
            ("unix", numbers) => Command::Unix(unix(numbers)?),
            ("read", [kind]) => Command::Read(to(kind)?),
            ("kind", []) => Command::Kind,
            ("trimble", []) => Command::Trimble,
            ("write", numbers) => Command::Write(numbers),
            ("digits", []) => Command::Digits,
            ("number", [number, count, room]) => {
                Command::Number(to_u64(number)?, to_usize(count)?, to_usize(room)?)
            }
            ("run", []) => Command::Run,
            ("outcome", [outcome]) => Command::Outcome(to_u32(outcome)?),
            ("at", [length, place]) => Command::At(to_usize(length)?, to_usize(place)?),
            ("fill", [marks, outcomes]) => Command::Fill(Lent {
                marks: to_usize(marks)?,
                outcomes: to_usize(outcomes)?,
            }),
            ("correct", numbers) => correct(numbers, Sheet::Right)?,
            ("unfit", numbers) => correct(numbers, Sheet::Unfit)?,
            ("mend", numbers) => mend(numbers)?,
            _ => return None,
        })
    }

    // What the text of a command shows in place of a zero byte: that of marks has a digit for each.
    pub fn base(&self) -> u8 {
        match self {
            Command::Kind | Command::Trimble | Command::Digits => 0,
            Command::Read(kind) if *kind != MINUTE => 0,
            _ => b'0',
        }
    }
}
