// A recording that is made with the minute writer: whole minutes from the one that announces 8 November 2006 00:00 on,
// a gap after each, and unsure marks if no further minute fits. The first 86,400 marks are a day.
use crate::refusal::{Refusal, check};
use c_readings::minutes::radio_clock_write_minute;

// More minutes than fit.
const MINUTES: u16 = 1700;

// The minute of the second day that has a leap second.
const LEAP: u16 = 1500;

const GAP: u8 = 2;

// What the minute of this number announces. Summer time ends after three hours.
fn minute_at(i: u16) -> [i32; 16] {
    let summer = i32::from(i < 180);
    let day = i32::from(i / 1440 % 4);
    [
        2006,
        11,
        8 + day,
        3 + day,
        i32::from(i / 60 % 24),
        i32::from(i % 60),
        0,
        60 + 60 * summer,
        0,
        0,
        summer,
        i32::from(i / 60 == 2),
        i32::from(1440 < i && i <= LEAP),
        i32::from(i % 7 == 0),
        i32::from(i % 16384),
        i32::from(i == LEAP),
    ]
}

// Writes a minute to the front of `m`, and answers how many marks it has.
fn write_minute(m: &mut [u8], i: u16) -> Result<usize, Refusal> {
    let mut count = 0;
    check(radio_clock_write_minute(&minute_at(i), m, &mut count))?;
    Ok(count)
}

// Puts the recording in place of unsure marks.
pub fn make(m: &mut [u8]) {
    let mut rest = m;
    for i in 0..MINUTES {
        let Ok(count) = write_minute(rest, i) else {
            continue;
        };
        let Some((gap, after)) = rest
            .get_mut(count..)
            .and_then(|after| after.split_first_mut())
        else {
            return;
        };
        *gap = GAP;
        rest = after;
    }
}
