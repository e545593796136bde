// The number of a run of marks, and the Unix time that such a number announces.
#![tactic(auto)]

ghost use Rattle.std.specs.Prelude.{◌≡◌, true, ◌+◌, ◌*◌, ◌<◌, pos};
ghost use Rattle.clock_time.specs.Reading.{answer_of};
ghost use Rattle.clock_time.specs.Errors.{accepted};
ghost use Rattle.clock_time.specs.Same.{eq_ℤ};
ghost use Rattle.gregorian.specs.Date.{supported_date, first_year, last_year};
ghost use Rattle.calendar.specs.Date.{days_since_epoch};
ghost use Rattle.dcf77.specs.Minute.{mark};
ghost use Rattle.dcf77_outcome.specs.Number.{outcome_number, run_number};
ghost use Rattle.dcf77_outcome.specs.Instant.{is_minute_number, outcome_unix_time};

use clock_time::Error;
use dcf77::MinuteTime;
use gregorian::supported::SupportedDate;

// The least and the greatest number of an accepted minute: those below are errors.
const FIRST: u32 = 100;

const LAST: u32 = 1_683_072_099;

// What a minute more adds, a run of 60 marks, the offset 120, and each flag.
const MINUTE: u32 = 32;

const SIXTY: u32 = 16;

const SUMMER: u32 = 8;

const ANTENNA: u32 = 4;

const CHANGE: u32 = 2;

// The minutes from 1 January 1970 00:00.
#[tactic(auto, using(calendar::proofs::DateLaws::days_small))]
fn local_minutes(date: SupportedDate, hour: u8, minute: u8) -> u32
    ensures { (result < 58000000)
        × (result ≡ 1440 * days_since_epoch date.date.year date.date.month date.date.day + 60 * hour + minute) }
{
    1440 * calendar::date::days_since_epoch(date) + 60 * u32::from(hour) + u32::from(minute)
}

// What the length, the offset 120 and the flags add.
fn flags_number(a: MinuteTime) -> u32
    ensures { (result < 8192)
        × (result ≡ 16 * mark a.detail.sixty + 8 * mark a.time.summer_time + 4 * mark a.time.alternate_antenna
        + 2 * mark a.time.dst_change_announced + mark a.time.leap_second_announced) }
{
    let t = a.time;
    SIXTY * u32::from(a.detail.sixty)
        + SUMMER * u32::from(t.summer_time)
        + ANTENNA * u32::from(t.alternate_antenna)
        + CHANGE * u32::from(t.dst_change_announced)
        + u32::from(t.leap_second_announced)
}

// The number of a minute that was read.
fn number_of(a: MinuteTime) -> u32
    requires supported { supported_date first_year last_year a.time.year a.time.month a.time.day ≡ true }
    requires summer { eq_ℤ a.time.utc_offset (pos 120) ≡ a.time.summer_time }
    ensures { result ≡ outcome_number (accepted a) }
{
    let t = a.time;
    let date = SupportedDate { date: t.date() };
    FIRST + MINUTE * local_minutes(date, t.hour, t.minute) + flags_number(a)
}

// The number of a run of marks: the error's, or that of the minute.
// One u32 for both, since the outcomes that C lends hold a minute's number or an error's.
pub fn run_number(m: &[u8]) -> u32
    ensures { result ≡ run_number m.now }
{
    match dcf77::read_minute(m) {
        Ok(a) => number_of(a),
        Err(e) => u32::from(u8::from(e)),
    }
}

// Whether some accepted minute has the number: its minute is one of the years 1970 to 2069, and with the 16 of a run of
// 60 it announces a leap second, after minute 0.
fn is_minute_number(number: u32) -> bool
    ensures { result ≡ is_minute_number number }
{
    if (number < FIRST) | (LAST < number) {
        return false;
    }
    let sent = number - FIRST;
    !((sent / SIXTY % 2 == 1) & !((sent % 2 == 1) & (sent / MINUTE % 60 == 0)))
}

// The Unix time that the number of an accepted minute announces. Refuses with Unrepresentable (23) if no accepted
// minute has the number.
pub fn outcome_unix_time(number: u32) -> Result<i64, Error>
    ensures { answer_of result ≡ outcome_unix_time number }
{
    if is_minute_number(number) {
        let sent = number - FIRST;
        let offset = clock_time::cet_offset(sent / SUMMER % 2 == 1);
        return Ok(calendar::unix_time::utc_of_minutes(sent / MINUTE, offset));
    }
    Err(Error::Unrepresentable)
}
