// A string that fits the layout of GPS strings, and its fields.
ghost use Rattle.std.specs.Prelude.{◌≡◌};
ghost use Rattle.clock_time.specs.Reading.{answer_of};
ghost use Rattle.layout.specs.Layout.{FitsLayout};
ghost use Rattle.meinberg_gps.specs.Gps.{gps_layout, offset_magnitude, offset_fault, offset_of, leap_mismatch};
ghost use Rattle.meinberg_gps.specs.Gps.{clock_of, read_clock, read_gps};

use crate::GpsTime;
use clock_time::{ClockTime, Error, Position};
use gregorian::FIRST_YEAR;

#[derive(Clone, Copy)]
pub(crate) struct Fitting<'a> {
    pub(crate) s: &'a [u8; 66],
    ghost fits: { FitsLayout gps_layout s.now },
}

impl<'a> Fitting<'a> {
    fn offset_magnitude(self) -> u32
        ensures { result ≡ offset_magnitude self.entry.s.now }
    {
        let s = self.s;
        let [hours, minutes, _] = layout_words::numbers_at(s, 25);
        60 * (hours as u32) + minutes as u32
    }

    // Whether the offset breaks a rule.
    fn has_offset_fault(self) -> bool
        ensures { result ≡ offset_fault self.entry.s.now }
    {
        let s = self.s;
        let [_, minutes, _] = layout_words::numbers_at(s, 25);
        !((minutes <= 59) & signed::sign_holds(b'+', b'-', 60 * 14, s[24], self.offset_magnitude()))
    }

    fn offset(self) -> i16
        ensures { result ≡ offset_of self.entry.s.now }
    {
        let s = self.s;
        signed::with_sign(s[24] == b'-', self.offset_magnitude()) as i16
    }

    // Places, zone and flags are this format's own; the fields name each byte.
    fn clock(self) -> ClockTime
        ensures { result ≡ clock_of self.entry.s.now }
    {
        let s = self.s;
        let [day, month, year] = layout_words::numbers_at(s, 1);
        let [hour, minute, second] = layout_words::numbers_at(s, 14);
        ClockTime {
            year: gregorian::full_year(FIRST_YEAR, year),
            month,
            day,
            weekday: s[11] % 16,
            hour,
            minute,
            second,
            utc_offset: self.offset(),
            unsynchronised: s[32] == b'#',
            unverified: s[33] == b'*',
            summer_time: s[34] == b'S',
            dst_change_announced: s[35] == b'!',
            leap_second_announced: s[36] == b'A',
            alternate_antenna: s[37] == b'R',
        }
    }

    // Whether the letter for second 60 and the second disagree.
    fn has_leap_mismatch(self) -> bool
        ensures { result ≡ leap_mismatch self.entry.s.now }
    {
        let s = self.s;
        let [_, _, second] = layout_words::numbers_at(s, 14);
        (s[38] == b'L') != (second == 60)
    }

    // Reads the clock time of a string whose offset and `position` hold. Refuses with the first that holds of
    // NoSuchDate (5), NoSuchTime (6) and Weekday (7).
    fn read_clock(self, position: Position) -> Result<GpsTime, Error>
        ensures { answer_of result ≡ read_clock self.entry.s.now position }
    {
        let time = layout::check_clock(self.clock(), self.has_leap_mismatch())?;
        Ok(GpsTime { time, position })
    }

    // Reads the string. Refuses with the first that holds of UtcOffset (8), Position (9), NoSuchDate (5), NoSuchTime
    // (6) and Weekday (7).
    pub(crate) fn read(self) -> Result<GpsTime, Error>
        ensures { answer_of result ≡ read_gps self.entry.s.now }
    {
        let s = self.s;
        if self.has_offset_fault() {
            return Err(Error::UtcOffset);
        }
        let position = meinberg_gps_position::read_position(s)?;
        self.read_clock(position)
    }
}
