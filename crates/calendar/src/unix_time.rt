// Unix time of a clock time.
ghost use Rattle.std.specs.Prelude.{◌≡◌, true, ◌*◌, ◌<◌, pos, ◌-ℤ◌, ◌*ℤ◌};
ghost use Rattle.clock_time.specs.Reading.{answer_of};
ghost use Rattle.calendar.specs.UnixTime.{offset_in_range, is_reading, instant_of, unix_time};

use crate::{date, time_of_day};
use clock_time::{ClockTime, Error};
use gregorian::supported::SupportedDate;
use gregorian::{FIRST_YEAR, LAST_YEAR};

// True for at most 840 minutes either way.
pub fn offset_in_range(offset: i16) -> bool
    ensures { result ≡ offset_in_range offset }
{
    (-840 <= offset) & (offset <= 840)
}

// Whether the fields of a clock time are those of a reading; the flags play no part.
pub fn is_reading(t: ClockTime) -> bool
    ensures { result ≡ is_reading t }
{
    if gregorian::is_supported_date(FIRST_YEAR, LAST_YEAR, t.date()) {
        if (1 <= t.weekday) & (t.weekday <= 7) & offset_in_range(t.utc_offset) {
            return time_of_day::time_exists(t.hour, t.minute, t.second, t.utc_offset);
        }
        return false;
    }
    false
}

fn to_utc(local: u64, offset: i16) -> i64
    requires { local < 1000000000000 }
    ensures { result ≡ pos local -ℤ pos 60 *ℤ offset }
{
    local as i64 - 60 * (offset as i64)
}

// The Unix time of the local time that is `minutes` minutes after 1 January 1970 00:00.
pub fn utc_of_minutes(minutes: u32, offset: i16) -> i64
    ensures { result ≡ pos (60 * minutes) -ℤ pos 60 *ℤ offset }
{
    to_utc(60 * (minutes as u64), offset)
}

fn instant_of(t: ClockTime) -> i64
    requires { is_reading t ≡ true }
    ensures { result ≡ instant_of t }
{
    let days = date::days_since_epoch(SupportedDate { date: t.date() });
    let time = 3600 * (t.hour as u64) + 60 * (t.minute as u64) + t.second as u64;
    to_utc(86400 * (days as u64) + time, t.utc_offset)
}

// The Unix time of a clock time; its flags play no part. Refuses with Unrepresentable (23) if its other fields are
// those of no valid reading.
pub fn unix_time(t: ClockTime) -> Result<i64, Error>
    ensures { answer_of result ≡ unix_time t }
{
    if is_reading(t) {
        return Ok(instant_of(t));
    }
    Err(Error::Unrepresentable)
}
