// Days and weekdays of dates.
ghost use Rattle.std.specs.Prelude.{◌≡◌, ◌+◌, ◌-◌, ◌*◌, ◌/◌, ◌<◌};
ghost use Rattle.clock_time.specs.Reading.{answer_of};
ghost use Rattle.calendar.specs.Date.{days_since_epoch, day_number, weekday_of, weekday_or_zero};
ghost use Rattle.calendar.specs.Date.{with_weekday};

use clock_time::{ClockTime, Date, Error};
use gregorian::supported::SupportedDate;

// Days from 1 January 1970 to a date, less 365 for each year. At 489 / 16 days a month February has 30; from March on
// two are taken off, and the year's own leap day is counted.
fn days_less_years(date: SupportedDate) -> u32
    ensures { 365 * (date.date.year - 1970) + result ≡ days_since_epoch date.date.year date.date.month date.date.day }
{
    let Date { year, month, day } = date.date;
    let years = (year - 1970) as u32;
    let march = (2 < month) as u32;
    (years + 1 + march) / 4 + 489 * (month as u32) / 16 + day as u32 - 31 - 2 * march
}

// Days from 1 January 1970 to a date.
pub fn days_since_epoch(date: SupportedDate) -> u32
    ensures { result ≡ days_since_epoch date.date.year date.date.month date.date.day }
{
    365 * ((date.date.year - 1970) as u32) + days_less_years(date)
}

// The days from 1 January 1970 to a date. Refuses with NoSuchDate (5) if the date is not one of 1970 to 2069.
pub fn day_number(date: Date) -> Result<u32, Error>
    ensures { answer_of result ≡ day_number date.year date.month date.day }
{
    match SupportedDate::new(date) {
        Some(supported) => Ok(days_since_epoch(supported)),
        None => Err(Error::NoSuchDate),
    }
}

// The weeks of fewer than 600 days.
fn weeks(days: u32) -> u32
    requires { days < 600 }
    ensures { result ≡ days / 7 }
{
    days * 293 / 2048
}

// The weekday, 1 Monday to 7 Sunday; 0 if the date is not one of 1970 to 2069. Each 365 days move it on by one. It is 0
// and no Option, as in the definition `weekday_or_zero`: `with_weekday` puts it into a clock time of any date.
pub fn weekday_or_zero(date: Date) -> u8
    ensures { result ≡ weekday_or_zero date.year date.month date.day }
{
    match SupportedDate::new(date) {
        Some(supported) => {
            let days = 3 + (date.year - 1970) as u32 + days_less_years(supported);
            1 + (days - 7 * weeks(days)) as u8
        }
        None => 0,
    }
}

// The clock time with the weekday of its date in place of its own.
pub fn with_weekday(t: ClockTime) -> ClockTime
    ensures { result ≡ with_weekday t }
{
    ClockTime {
        weekday: weekday_or_zero(t.date()),
        ..t
    }
}

// The weekday, 1 Monday to 7 Sunday. Refuses with NoSuchDate (5) if the date is not one of 1970 to 2069.
// By `weekday_or_zero`, which has the one test of the date.
pub fn weekday_of(date: Date) -> Result<u32, Error>
    ensures { answer_of result ≡ weekday_of date.year date.month date.day }
{
    let weekday = weekday_or_zero(date);
    if weekday == 0 {
        return Err(Error::NoSuchDate);
    }
    Ok(weekday as u32)
}
