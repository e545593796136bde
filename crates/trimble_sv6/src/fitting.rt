// A string that fits the layout of Trimble strings: its sum and its fields.
ghost use Rattle.std.specs.Prelude.{◌≡◌};
ghost use Rattle.clock_time.specs.Reading.{answer_of};
ghost use Rattle.layout.specs.Layout.{FitsLayout};
ghost use Rattle.trimble_sv6.specs.Sum.{sum_holds};
ghost use Rattle.trimble_sv6.specs.Trimble.{trimble_layout, sent_fields, milliseconds_of, read_clock, read_trimble};

use crate::TrimbleTime;
use crate::sum::{hex_digit, trimble_sum};
use clock_time::{ClockTime, Error};

#[derive(Clone, Copy)]
pub(crate) struct Fitting<'a> {
    pub(crate) s: &'a [u8; 37],
    ghost fits: { FitsLayout trimble_layout s.now },
}

impl<'a> Fitting<'a> {
    // Whether the hex digits of the sum are those that were sent.
    #[tactic(auto, unfolding(crate::specs::Sum::sum_holds))]
    fn sum_holds(self) -> bool
        ensures { result ≡ sum_holds self.entry.s.now }
    {
        let s = self.s;
        let sum = trimble_sum(s);
        (s[34] == hex_digit(sum / 16)) & (s[35] == hex_digit(sum))
    }

    // The fields that are sent, and 0 for a weekday.
    // Places are this format's own; the fields name each number.
    fn sent_fields(self) -> ClockTime
        ensures { result ≡ sent_fields self.entry.s.now }
    {
        let s = self.s;
        let [hour, minute, second, _] = layout_words::four_numbers_at(s, 4);
        let [day, month, century, year] = layout_words::four_numbers_at(s, 13);
        ClockTime {
            year: 100 * (century as u16) + year as u16,
            month,
            day,
            weekday: 0,
            hour,
            minute,
            second,
            utc_offset: 0,
            unsynchronised: false,
            unverified: false,
            summer_time: false,
            dst_change_announced: false,
            leap_second_announced: false,
            alternate_antenna: false,
        }
    }

    // The number of the three digits at place 10.
    fn milliseconds(self) -> u16
        ensures { result ≡ milliseconds_of self.entry.s.now }
    {
        let s = self.s;
        let [_, _, _, hundredths] = layout_words::four_numbers_at(s, 4);
        10 * (hundredths as u16) + (s[12] % 16) as u16
    }

    // Reads the clock time of a string whose sum and validity hold. Refuses with NoSuchDate (5) if the date is not one
    // of 1970 to 2069, then with NoSuchTime (6).
    fn read_clock(self) -> Result<TrimbleTime, Error>
        ensures { answer_of result ≡ read_clock self.entry.s.now }
    {
        let time = layout::check_without_weekday(self.sent_fields())?;
        Ok(TrimbleTime {
            time,
            milliseconds: self.milliseconds(),
        })
    }

    // Reads the string. Refuses with the first that holds of Checksum (24), ValidityFlag (25), NoSuchDate (5) and
    // NoSuchTime (6).
    pub(crate) fn read(self) -> Result<TrimbleTime, Error>
        ensures { answer_of result ≡ read_trimble self.entry.s.now }
    {
        let s = self.s;
        let right = self.sum_holds();
        let valid = s[26] == b'1';
        if !right {
            return Err(Error::Checksum);
        }
        if !valid {
            return Err(Error::ValidityFlag);
        }
        self.read_clock()
    }
}
