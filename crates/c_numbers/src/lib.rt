// Readings as numbers in lent memory.
#![tactic(auto)]

ghost use Rattle.std.specs.Prelude.{◌≡◌, ◌++◌, ◌≤◌, List, ℤ, take};
ghost use Rattle.clock_time.specs.Exit.{exit};
ghost use Rattle.clock_time.specs.Reading.{answer_of};
ghost use Rattle.c_numbers.specs.Numbers.{time_numbers, gps_numbers, minute_numbers, trimble_numbers};
ghost use Rattle.c_numbers.specs.Numbers.{gps_count, put_numbers, put_answer};

use clock_time::{ClockTime, Error};
use dcf77::MinuteTime;
use meinberg_gps::GpsTime;
use trimble_sv6::TrimbleTime;

// How many numbers a clock time is, one with a position, a minute, and a clock time with milliseconds.
pub const TIME_FIELDS: usize = 14;

pub const GPS_FIELDS: usize = 17;

pub const MINUTE_FIELDS: usize = 16;

pub const TRIMBLE_FIELDS: usize = 15;

// A reading that C has as numbers.
pub trait Numbers {
    ghost numbers: { Self → List ℤ };

    // Puts them in the place of the first of those lent. Refuses with LentMemory (20) if there is no room.
    fn put(self, fields: &mut [i32]) -> Result<(), Error>
        ensures { exit (answer_of result) fields.new ≡ put_numbers (numbers self) fields.old };
}

impl Numbers for ClockTime {
    ghost numbers = { time_numbers };

    fn put(self, fields: &mut [i32]) -> Result<(), Error> {
        put_first(TIME_FIELDS, self, [0; 3], fields)
    }
}

impl Numbers for GpsTime {
    ghost numbers = { gps_numbers };

    fn put(self, fields: &mut [i32]) -> Result<(), Error> {
        let p = self.position;
        let more = [p.latitude, p.longitude, i32::from(p.height)];
        put_first(GPS_FIELDS, self.time, more, fields)
    }
}

impl Numbers for MinuteTime {
    ghost numbers = { minute_numbers };

    fn put(self, fields: &mut [i32]) -> Result<(), Error> {
        let d = self.detail;
        let more = [i32::from(d.first_marks), i32::from(d.sixty), 0];
        put_first(MINUTE_FIELDS, self.time, more, fields)
    }
}

impl Numbers for TrimbleTime {
    ghost numbers = { trimble_numbers };

    fn put(self, fields: &mut [i32]) -> Result<(), Error> {
        let more = [i32::from(self.milliseconds), 0, 0];
        put_first(TRIMBLE_FIELDS, self.time, more, fields)
    }
}

// The numbers of a clock time, and three more.
fn numbers_with(t: ClockTime, more: [i32; 3]) -> [i32; GPS_FIELDS]
    ensures { result ≡ time_numbers t ++ more }
{
    let [a, b, c] = more;
    [
        i32::from(t.year),
        i32::from(t.month),
        i32::from(t.day),
        i32::from(t.weekday),
        i32::from(t.hour),
        i32::from(t.minute),
        i32::from(t.second),
        i32::from(t.utc_offset),
        i32::from(t.unsynchronised),
        i32::from(t.unverified),
        i32::from(t.summer_time),
        i32::from(t.dst_change_announced),
        i32::from(t.leap_second_announced),
        i32::from(t.alternate_antenna),
        a,
        b,
        c,
    ]
}

// Puts the first `count` of a clock time's numbers and three more in the place of the first of those lent. One copy of
// an array is quicker than one of the time's numbers and another of those after them.
fn put_first(count: usize, t: ClockTime, more: [i32; 3], fields: &mut [i32]) -> Result<(), Error>
    requires { count ≤ gps_count }
    ensures { exit (answer_of result) fields.new
        ≡ put_numbers (take count (time_numbers t ++ more)) fields.old }
{
    if fields.len() < count {
        return Err(Error::LentMemory);
    }
    let numbers = numbers_with(t, more);
    fields[..count].copy_from_slice(&numbers[..count]);
    Ok(())
}

// Puts the numbers of what was read in the place of the first of those lent. Refuses as the reader did, then with
// LentMemory (20) if there is no room.
#[tactic(auto, unfolding(crate::specs::Numbers::put_answer, crate::specs::Numbers::put_numbers))]
pub fn put_answer<R: Numbers>(answer: Result<R, Error>, fields: &mut [i32]) -> Result<(), Error>
    ensures { exit (answer_of result) fields.new
        ≡ put_answer R.numbers (answer_of answer) fields.old }
{
    answer?.put(fields)
}
