// The checks of a minute and its fields. Mark 45 of the month, say, is the bit of 512 in the number of the date.
ghost use Rattle.std.specs.Prelude.{◌≡◌, not, ◌&&◌, ◌++◌, ◌/◌, ◌%◌, ◌≤◌, leb, eqb, length};
ghost use Rattle.clock_time.specs.Reading.{answer_of};
ghost use Rattle.clock_time.specs.Errors.{checked};
ghost use Rattle.dcf77.specs.Marks.{long, short};
ghost use Rattle.dcf77.specs.Minute.{announced, minute_fields};
ghost use Rattle.dcf77.specs.Numbers.{Numbers, start_checks, number_checks, date_checks, time_checks};

use crate::marks::{LONG, SHORT, SureRun};
use crate::{MinuteTime, marks};
use clock_time::{ClockTime, Error, MinuteDetail};
use gregorian::FIRST_YEAR;

// The marks that stand for one thing each, and the first of those that are kept as sent.
const FIRST: usize = 1;

const ANTENNA: usize = 15;

const CHANGE: usize = 16;

const SUMMER: usize = 17;

const WINTER: usize = 18;

const LEAP: usize = 19;

const START: usize = 20;

// A run of sure marks with the numbers that its marks 21 to 28, 29 to 35 and 36 to 58 stand for.
#[derive(Clone, Copy)]
pub(crate) struct Minute<'a> {
    run: SureRun<'a>,
    minute: u32,
    hour: u32,
    date: u32,
    ghost numbers: { Numbers run.marks.now minute hour date },
}

impl<'a> Minute<'a> {
    pub(crate) fn new(run: SureRun<'a>) -> Minute<'a>
        ensures { result.run ≡ run.entry }
    {
        Minute {
            run,
            minute: run.minute(),
            hour: run.hour(),
            date: run.date(),
        }
    }

    // The time that the marks announce.
    fn announced_time(&self) -> ClockTime
        ensures { result ≡ announced self.now.run.marks.now }
    {
        let (minute, hour, date) = (self.minute, self.hour, self.date);
        let m = self.run.marks;
        let summer = m[SUMMER] == LONG;
        ClockTime {
            year: gregorian::full_year(
                FIRST_YEAR,
                (date / 16384 % 16 + 10 * (date / 262144 % 16)) as u8,
            ),
            month: (date / 512 % 16 + 10 * (date / 8192 % 2)) as u8,
            day: (date % 16 + 10 * (date / 16 % 4)) as u8,
            weekday: (date / 64 % 8) as u8,
            hour: (hour % 16 + 10 * (hour / 16 % 4)) as u8,
            minute: (minute % 16 + 10 * (minute / 16 % 8)) as u8,
            second: 0,
            utc_offset: clock_time::cet_offset(summer),
            unsynchronised: false,
            unverified: false,
            summer_time: summer,
            dst_change_announced: m[CHANGE] == LONG,
            leap_second_announced: m[LEAP] == LONG,
            alternate_antenna: m[ANTENNA] == LONG,
        }
    }

    // The announced time, with marks 1 to 14 and the length.
    pub(crate) fn fields(&self) -> MinuteTime
        ensures { result ≡ minute_fields self.now.run.marks.now }
    {
        let time = self.announced_time();
        let run = &self.run;
        let first = run.eight(FIRST) + 256 * (run.eight(FIRST + 8) % 64);
        MinuteTime {
            time,
            detail: MinuteDetail {
                first_marks: first as u16,
                sixty: run.marks.len() == 60,
            },
        }
    }

    // Refuses with the first that holds of StartMark (13) and ZoneMarks (14).
    pub(crate) fn check_start(&self) -> Result<(), Error>
        ensures { answer_of result ≡ checked (start_checks self.now.run.marks.now) tt }
    {
        let m = self.run.marks;
        if !((m[0] == SHORT) & (m[START] == LONG)) {
            return Err(Error::StartMark);
        }
        if m[SUMMER] == m[WINTER] {
            return Err(Error::ZoneMarks);
        }
        Ok(())
    }

    // Whether none of the six digits of four marks is above 9.
    fn digits_fit(&self) -> bool
        ensures { result ≡ (leb (self.now.minute % 16) 9 && leb (self.now.hour % 16) 9 && leb (self.now.date % 16) 9
            && leb (self.now.date / 512 % 16) 9
            && leb (self.now.date / 16384 % 16) 9 && leb (self.now.date / 262144 % 16) 9) }
    {
        let (minute, hour, date) = (self.minute, self.hour, self.date);
        (minute % 16 <= 9)
            & (hour % 16 <= 9)
            & (date % 16 <= 9)
            & (date / 512 % 16 <= 9)
            & (date / 16384 % 16 <= 9)
            & (date / 262144 % 16 <= 9)
    }

    // Refuses with the first that holds of MinuteParity (15), HourParity (16), DateParity (17) and DecimalDigit (18).
    pub(crate) fn check_numbers(&self) -> Result<(), Error>
        ensures { answer_of result ≡ checked (number_checks self.now.minute self.now.hour self.now.date) tt }
    {
        if marks::is_odd(self.minute) {
            return Err(Error::MinuteParity);
        }
        if marks::is_odd(self.hour) {
            return Err(Error::HourParity);
        }
        if marks::is_odd(self.date) {
            return Err(Error::DateParity);
        }
        if !self.digits_fit() {
            return Err(Error::DecimalDigit);
        }
        Ok(())
    }

    // Whether 60 marks lack the leap second's announcement, the short mark 59 or minute 0.
    fn is_leap_fault(&self, minute: u8) -> bool
        ensures { result ≡ (eqb (length self.now.run.marks.now) 60
            && not (long 19 self.now.run.marks.now && short 59 self.now.run.marks.now && eqb minute 0)) }
    {
        let m = self.run.marks;
        if m.len() == 60 {
            return !((m[LEAP] == LONG) & (m[59] == SHORT) & (minute == 0));
        }
        false
    }

    // Refuses, at second 0, with the first that holds of NoSuchTime (6) and LeapMinute (19).
    pub(crate) fn check_time(&self, hour: u8, minute: u8) -> Result<(), Error>
        ensures { answer_of result ≡ checked (time_checks self.now.run.marks.now hour minute) tt }
    {
        if !((hour < 24) & (minute < 60)) {
            return Err(Error::NoSuchTime);
        }
        if self.is_leap_fault(minute) {
            return Err(Error::LeapMinute);
        }
        Ok(())
    }
}

// Refuses with the first that holds of Weekday (7) and NoSuchDate (5).
pub(crate) fn check_date(t: ClockTime) -> Result<(), Error>
    ensures { answer_of result ≡ checked (date_checks t.weekday t.year t.month t.day) tt }
{
    if !((1 <= t.weekday) & (t.weekday <= 7)) {
        return Err(Error::Weekday);
    }
    if !gregorian::date_exists(t.date()) {
        return Err(Error::NoSuchDate);
    }
    Ok(())
}
