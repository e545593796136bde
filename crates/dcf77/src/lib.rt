// One DCF77 minute: reading a run of marks.
#![tactic(auto)]

ghost use Rattle.std.specs.Prelude.{◌≡◌};
ghost use Rattle.clock_time.specs.Reading.{answer_of};
ghost use Rattle.dcf77.specs.Minute.{read_minute};

use clock_time::{ClockTime, Error, MinuteDetail};
use marks::SureRun;
use reading::Minute;

pub mod marks;
mod reading;

// The time that a minute announces, with its marks 1 to 14 and whether it had 60. A struct of its own, as `GpsTime` is.
#[derive(Clone, Copy, Debug, PartialEq, Eq)]
pub struct MinuteTime {
    pub time: ClockTime,
    pub detail: MinuteDetail,
}

// Reads a run of marks. Refuses with the first that holds of RunLength (11), UnsureMark (12), StartMark (13), ZoneMarks
// (14), MinuteParity (15), HourParity (16), DateParity (17), DecimalDigit (18), Weekday (7), NoSuchDate (5), NoSuchTime
// (6) and LeapMinute (19).
pub fn read_minute(m: &[u8]) -> Result<MinuteTime, Error>
    ensures { answer_of result ≡ read_minute m.now }
{
    if !((m.len() == 59) | (m.len() == 60)) {
        return Err(Error::RunLength);
    }
    let run = SureRun::new(m).ok_or(Error::UnsureMark)?;
    let minute = Minute::new(run);
    minute.check_start()?;
    minute.check_numbers()?;
    let a = minute.fields();
    let t = a.time;
    reading::check_date(t)?;
    minute.check_time(t.hour, t.minute)?;
    Ok(a)
}
