// The writer of the Meinberg GPS string.
#![tactic(auto)]

ghost use Rattle.std.specs.Prelude.{◌≡◌};
ghost use Rattle.clock_time.specs.Writing.{written};
ghost use Rattle.meinberg_gps.specs.Gps.{write_gps};

use clock_time::Error;
use meinberg_gps::GpsTime;

mod text;

// Writes a clock time and a position as a Meinberg GPS string to the front of `out`. Refuses with Unrepresentable (23)
// if no such string is read as them, then with LentMemory (20) if there is no room for 66 bytes.
// Text and test are this format's own: see `clock_time::write_bytes`.
pub fn write_gps(g: GpsTime, out: &mut [u8]) -> Result<usize, Error>
    ensures { written result out.new ≡ write_gps g out.old }
{
    let line = text::text_of(g);
    let representable = calendar::representable::is_representable(g.time)
        & meinberg_gps_position::is_representable(g.position);
    clock_time::write_bytes(representable, &line, out)
}
