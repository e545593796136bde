// The Trimble string.
ghost use Rattle.std.specs.Prelude.{◌≡◌};
ghost use Rattle.clock_time.specs.Called.{called, called_memory};
ghost use Rattle.c_readings.specs.Trimble.{read_trimble_into};

use clock_time::called;

#[tactic(auto, unfolding(crate::specs::Trimble::read_trimble_into))]
// Reads a Trimble SV6 string into the first 15 of the numbers lent. Refuses as its reader does, then with LentMemory
// (20) if there is no room.
pub fn radio_clock_read_trimble(s: &[u8], fields: &mut [i32]) -> u8
    ensures { called result fields.new ≡ called_memory (read_trimble_into s.now fields.old) }
{
    called::status(c_numbers::put_answer(trimble_sv6::read_trimble(s), fields))
}
