// What every writer asks of a clock time.
ghost use Rattle.std.specs.Prelude.{◌≡◌};
ghost use Rattle.calendar.specs.Representable.{is_representable};

use clock_time::ClockTime;

// Whether a clock time has what every writer asks, before its format's own test of zone and flags.
pub fn is_representable(t: ClockTime) -> bool
    ensures { result ≡ is_representable t }
{
    crate::unix_time::is_reading(t)
}
