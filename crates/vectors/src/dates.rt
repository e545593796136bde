// The commands on dates and times of day; and `error`, which gives the number of the error at a place of the enum.
use crate::refusal::Refusal;
use calendar::{date, time_of_day};
use clock_time::{Date, Error};
use gregorian::FIRST_YEAR;

static ERRORS: [Error; 25] = [
    Error::Length,
    Error::FixedByte,
    Error::NotDigit,
    Error::FlagLetter,
    Error::NoSuchDate,
    Error::NoSuchTime,
    Error::Weekday,
    Error::UtcOffset,
    Error::Position,
    Error::NoEarlierGap,
    Error::RunLength,
    Error::UnsureMark,
    Error::StartMark,
    Error::ZoneMarks,
    Error::MinuteParity,
    Error::HourParity,
    Error::DateParity,
    Error::DecimalDigit,
    Error::LeapMinute,
    Error::LentMemory,
    Error::Place,
    Error::NewMark,
    Error::Unrepresentable,
    Error::Checksum,
    Error::ValidityFlag,
];

// The number of the error at a place of the enum, which starts at 0; of the last if there is no such place.
pub fn error_number(place: u8) -> u8 {
    let last = ERRORS.len() - 1;
    u8::from(ERRORS[last.min(usize::from(place))])
}

pub fn is_leap_year(year: u16) -> bool {
    gregorian::is_leap_year(year)
}

// The year of two digits.
pub fn full_year(digits: u8) -> u16 {
    gregorian::full_year(FIRST_YEAR, digits)
}

pub fn days_in_month(year: u16, month: u8) -> u8 {
    gregorian::days_in_month(year, month)
}

pub fn date_exists(date: Date) -> bool {
    gregorian::date_exists(date)
}

pub fn day_number(date: Date) -> Result<u32, Refusal> {
    Ok(date::day_number(date)?)
}

pub fn weekday_of(date: Date) -> Result<u32, Refusal> {
    Ok(date::weekday_of(date)?)
}

pub fn time_exists(hour: u8, minute: u8, second: u8, offset: i16) -> bool {
    time_of_day::time_exists(hour, minute, second, offset)
}
