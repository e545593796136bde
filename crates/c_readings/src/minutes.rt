// A DCF77 minute: reading and writing a run of marks.
ghost use Rattle.std.specs.Prelude.{◌≡◌};
ghost use Rattle.clock_time.specs.Called.{called, called_memory, called_both};
ghost use Rattle.c_writer.specs.Writers.{write_minute_from};
ghost use Rattle.c_readings.specs.Minutes.{read_minute_into};

use clock_time::called;

// Reads a run of marks into the first 16 of the numbers lent. Refuses as the minute's reader does, then with LentMemory
// (20) if there is no room.
#[tactic(auto, unfolding(crate::specs::Minutes::read_minute_into))]
pub fn radio_clock_read_minute(marks: &[u8], fields: &mut [i32]) -> u8
    ensures { called result fields.new ≡ called_memory (read_minute_into marks.now fields.old) }
{
    called::status(c_numbers::put_answer(dcf77::read_minute(marks), fields))
}

// Writes numbers as a run of marks to the front of `out`, with their count behind `written`. Refuses with
// Unrepresentable (23) if no run is read as the numbers, then with LentMemory (20) if there is no room.
pub fn radio_clock_write_minute(fields: &[i32], out: &mut [u8], written: &mut usize) -> u8
    ensures { called result (out.new, written.new)
        ≡ called_both written.old (write_minute_from fields.now out.old) }
{
    called::put(c_writer::write_marks(fields, out), written)
}
