// Writing a DCF77 minute as a run of marks.
#![tactic(auto)]

ghost use Rattle.std.specs.Prelude.{◌≡◌};
ghost use Rattle.clock_time.specs.Writing.{written};
ghost use Rattle.dcf77.specs.Minute.{write_minute};

use clock_time::Error;
use dcf77::MinuteTime;

mod writing;

// Writes a minute as a run of marks to the front of `out`. Refuses with Unrepresentable (23) if no run is read as it,
// then with LentMemory (20) if there is no room.
pub fn write_minute(a: MinuteTime, out: &mut [u8]) -> Result<usize, Error>
    ensures { written result out.new ≡ write_minute a out.old }
{
    let marks = writing::sixty_marks(a);
    let count = 59 + a.detail.sixty as usize;
    writing::write_run(a, &marks[..count], out)
}
