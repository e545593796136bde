// The Unix time of a reading's numbers.
ghost use Rattle.std.specs.Prelude.{◌≡◌};
ghost use Rattle.clock_time.specs.Reading.{answer_of};
ghost use Rattle.clock_time.specs.Called.{called, called_answer};
ghost use Rattle.c_readings.specs.Strings.{unix_time_of};

use clock_time::{Error, called};

#[tactic(auto, unfolding(crate::specs::Strings::unix_time_of))]
fn unix_time_of(fields: &[i32]) -> Result<i64, Error>
    ensures { answer_of result ≡ unix_time_of fields.now }
{
    let t = c_fields::first_time_of(fields)?;
    calendar::unix_time::unix_time(t)
}

// Leaves the Unix time of the first 14 numbers behind `time`. Refuses with Unrepresentable (23) if they are no valid
// reading.
pub fn radio_clock_unix_time(fields: &[i32], time: &mut i64) -> u8
    ensures { called result time.new ≡ called_answer time.old (unix_time_of fields.now) }
{
    called::put(unix_time_of(fields), time)
}
