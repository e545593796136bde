// The lines of a listing, written to lent memory.
#![tactic(auto)]

ghost use Rattle.std.specs.Prelude.{◌≡◌};
ghost use Rattle.clock_time.specs.Writing.{written};
ghost use Rattle.listing_lines.specs.Line.{write_line};
ghost use Rattle.listing_lines.specs.Totals.{write_totals};

use clock_time::{ClockTime, Error};

mod last_line;
pub mod line;

// How many strings were complete, complete but refused, and dropped, each modulo 2 ^ 64.
#[derive(Clone, Copy, Debug, PartialEq, Eq)]
pub struct Totals {
    pub frames: u64,
    pub refused: u64,
    pub dropped: u64,
}

// Writes the line of a clock time, its line feed included, to the front of `out`. Refuses with Unrepresentable (23) if
// its fields are no valid reading, then with LentMemory (20) if there is no room for 35 bytes.
pub fn write_line(t: ClockTime, out: &mut [u8]) -> Result<usize, Error>
    ensures { written result out.new ≡ write_line t out.old }
{
    let text = line::time_line(t);
    clock_time::write_bytes(calendar::unix_time::is_reading(t), &text, out)
}

// Writes the line of the totals, its line feed included, to the front of `out`. Refuses with LentMemory (20) if there
// is no room.
pub fn write_totals(t: Totals, out: &mut [u8]) -> Result<usize, Error>
    ensures { written result out.new ≡ write_totals t out.old }
{
    let line = last_line::totals_line(t);
    clock_time::write_bytes(true, line.as_str().as_bytes(), out)
}
