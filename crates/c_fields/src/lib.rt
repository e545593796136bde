// Numbers as the readings that they stand for.
#![tactic(auto)]

ghost use Rattle.std.specs.Prelude.{◌≡◌, true, ◌<◌, List, ℤ, nat_abs, length, map};
ghost use Rattle.clock_time.specs.Reading.{answer_of};
ghost use Rattle.clock_time.specs.FieldRanges.{Range, within, up_to, i16_range, i32_range, time_ranges, gps_ranges};
ghost use Rattle.c_fields.specs.Ranges.{minute_ranges, range_of, fits, fits_all};
ghost use Rattle.c_fields.specs.Ranges.{at, is_set, time_from, gps_from, minute_from, first_time_of, numbered_in};

use c_numbers::{GPS_FIELDS, MINUTE_FIELDS, TIME_FIELDS};
use clock_time::{ClockTime, Error, MinuteDetail, Position};
use dcf77::MinuteTime;
use meinberg_gps::GpsTime;

// A place in C's array of numbers: the least and the most that it may hold.
#[derive(Clone, Copy)]
struct Place {
    least: i32,
    most: i32,
}

impl Place {
    fn holds(self, x: i32) -> bool
        ensures { result ≡ within (range_of self) x }
    {
        (self.least <= x) & (x <= self.most)
    }
}

const WORD: Place = Place {
    least: 0,
    most: 65535,
};

const BYTE: Place = Place {
    least: 0,
    most: 255,
};

const FLAG: Place = Place { least: 0, most: 1 };

const OFFSET: Place = Place {
    least: -32768,
    most: 32767,
};

const ANY: Place = Place {
    least: -2147483648,
    most: 2147483647,
};

// The places of a GPS string's numbers, of which the first 14 are a clock time's.
const GPS_PLACES: [Place; GPS_FIELDS] = [
    WORD, BYTE, BYTE, BYTE, BYTE, BYTE, BYTE, OFFSET, FLAG, FLAG, FLAG, FLAG, FLAG, FLAG, ANY, ANY,
    WORD,
];

// The places of a minute's numbers.
const MINUTE_PLACES: [Place; MINUTE_FIELDS] = [
    WORD, BYTE, BYTE, BYTE, BYTE, BYTE, BYTE, OFFSET, FLAG, FLAG, FLAG, FLAG, FLAG, FLAG, WORD,
    FLAG,
];

// Whether the first numbers are in the ranges of these places. It looks at all, which is quicker than to stop early.
fn are_within(places: &[Place], z: &[i32]) -> bool
    ensures { result ≡ fits (map range_of places.now) z.now }
{
    if z.len() < places.len() {
        return false;
    }
    let mut all = true;
    for (place, x) in places.iter().zip(&z[..places.len()]) {
        all &= place.holds(*x);
    }
    all
}

// The same if there are no more numbers than places.
fn are_all_within(places: &[Place], z: &[i32]) -> bool
    ensures { result ≡ fits_all (map range_of places.now) z.now }
{
    (z.len() == places.len()) & are_within(places, z)
}

// What a number stands for in a field of this type.
trait Field: Sized {
    ghost range: { Range };

    ghost value: { ℤ → Self };

    fn of(x: i32) -> Self
        requires { within range x ≡ true }
        ensures { result ≡ value x };
}

impl Field for u16 {
    ghost range = { up_to 65535 };

    ghost value = { nat_abs };

    fn of(x: i32) -> u16 {
        x as u16
    }
}

impl Field for u8 {
    ghost range = { up_to 255 };

    ghost value = { nat_abs };

    fn of(x: i32) -> u8 {
        x as u8
    }
}

impl Field for i16 {
    ghost range = { i16_range };

    ghost value = { λ z. z };

    fn of(x: i32) -> i16 {
        x as i16
    }
}

impl Field for i32 {
    ghost range = { i32_range };

    ghost value = { λ z. z };

    fn of(x: i32) -> i32 {
        x
    }
}

impl Field for bool {
    ghost range = { up_to 1 };

    ghost value = { is_set };

    fn of(x: i32) -> bool {
        x == 1
    }
}

fn value_at<T: Field>(z: &[i32], i: usize) -> T
    requires { (i < length z.now) × (within T.range (at i z.now) ≡ true) }
    ensures { result ≡ T.value (at i z.now) }
{
    T::of(z[i])
}

fn time_from(z: &[i32]) -> ClockTime
    requires { fits time_ranges z.now ≡ true }
    ensures { result ≡ time_from z.now }
{
    ClockTime {
        year: value_at(z, 0),
        month: value_at(z, 1),
        day: value_at(z, 2),
        weekday: value_at(z, 3),
        hour: value_at(z, 4),
        minute: value_at(z, 5),
        second: value_at(z, 6),
        utc_offset: value_at(z, 7),
        unsynchronised: value_at(z, 8),
        unverified: value_at(z, 9),
        summer_time: value_at(z, 10),
        dst_change_announced: value_at(z, 11),
        leap_second_announced: value_at(z, 12),
        alternate_antenna: value_at(z, 13),
    }
}

fn gps_from(z: &[i32]) -> GpsTime
    requires { fits gps_ranges z.now ≡ true }
    ensures { result ≡ gps_from z.now }
{
    let time = time_from(z);
    let position = Position {
        latitude: value_at(z, 14),
        longitude: value_at(z, 15),
        height: value_at(z, 16),
    };
    GpsTime { time, position }
}

fn minute_from(z: &[i32]) -> MinuteTime
    requires { fits minute_ranges z.now ≡ true }
    ensures { result ≡ minute_from z.now }
{
    let time = time_from(z);
    let detail = MinuteDetail {
        first_marks: value_at(z, 14),
        sixty: value_at(z, 15),
    };
    MinuteTime { time, detail }
}

// The clock time that the first 14 numbers are. Refuses with Unrepresentable (23) if one is outside the range of its
// field, or there are fewer than 14.
// Not `from_numbers`: more numbers may follow.
pub fn first_time_of(z: &[i32]) -> Result<ClockTime, Error>
    ensures { answer_of result ≡ first_time_of z.now }
{
    if are_within(&GPS_PLACES[..TIME_FIELDS], z) {
        return Ok(time_from(z));
    }
    Err(Error::Unrepresentable)
}

// A reading that numbers stand for.
// Each impl has its own places and struct.
pub trait FromNumbers: Sized {
    ghost ranges: { List Range };

    ghost from: { List ℤ → Self };

    // The reading that the numbers are. Refuses with Unrepresentable (23) if one is outside the range of its field, or
    // there are not as many as fields.
    fn from_numbers(z: &[i32]) -> Result<Self, Error>
        ensures { answer_of result ≡ numbered_in ranges from z.now };
}

impl FromNumbers for ClockTime {
    ghost ranges = { time_ranges };

    ghost from = { time_from };

    #[tactic(auto, using(crate::proofs::RangeLaws::answers), unfolding(clock_time::specs::FieldRanges::time_ranges))]
    fn from_numbers(z: &[i32]) -> Result<ClockTime, Error> {
        if are_all_within(&GPS_PLACES[..TIME_FIELDS], z) {
            return Ok(time_from(z));
        }
        Err(Error::Unrepresentable)
    }
}

impl FromNumbers for GpsTime {
    ghost ranges = { gps_ranges };

    ghost from = { gps_from };

    #[tactic(auto, using(crate::proofs::RangeLaws::answers), unfolding(clock_time::specs::FieldRanges::time_ranges, clock_time::specs::FieldRanges::gps_ranges))]
    fn from_numbers(z: &[i32]) -> Result<GpsTime, Error> {
        if are_all_within(&GPS_PLACES, z) {
            return Ok(gps_from(z));
        }
        Err(Error::Unrepresentable)
    }
}

impl FromNumbers for MinuteTime {
    ghost ranges = { minute_ranges };

    ghost from = { minute_from };

    #[tactic(auto, using(crate::proofs::RangeLaws::answers), unfolding(clock_time::specs::FieldRanges::time_ranges, crate::specs::Ranges::minute_ranges))]
    fn from_numbers(z: &[i32]) -> Result<MinuteTime, Error> {
        if are_all_within(&MINUTE_PLACES, z) {
            return Ok(minute_from(z));
        }
        Err(Error::Unrepresentable)
    }
}
