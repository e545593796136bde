// Times of day, second 60 among them.
ghost use Rattle.std.specs.Prelude.{◌≡◌};
ghost use Rattle.calendar.specs.TimeOfDay.{utc_minute, time_exists};

// The minute of the UTC day. 33,120 is a multiple of 1,440 above any offset's magnitude, so that nothing falls below
// zero.
fn utc_minute(hour: u8, minute: u8, offset: i16) -> u32
    ensures { result ≡ utc_minute hour minute offset }
{
    let local = 60 * (hour as u32) + minute as u32;
    let shifted = (local + 33120) as i32 - offset as i32;
    shifted as u32 % 1440
}

// True for a time of day; second 60 is one only in the last minute of the UTC day.
pub fn time_exists(hour: u8, minute: u8, second: u8, offset: i16) -> bool
    ensures { result ≡ time_exists hour minute second offset }
{
    if second < 60 {
        return (hour < 24) & (minute < 60);
    }
    let utc = utc_minute(hour, minute, offset);
    (hour < 24) & (minute < 60) & (second == 60) & (utc == 1439)
}
