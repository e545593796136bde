// The string of a Trimble SV6 receiver.
#![tactic(auto)]

ghost use Rattle.std.specs.Prelude.{◌≡◌};
ghost use Rattle.clock_time.specs.Reading.{answer_of};
ghost use Rattle.trimble_sv6.specs.Trimble.{read_trimble};

use clock_time::{ClockTime, Error};
use format::Trimble;

mod fitting;
mod format;
mod sum;

// What a Trimble string says: a clock time, and the milliseconds beside it. A struct of its own, as `GpsTime` is.
#[derive(Clone, Copy, Debug, PartialEq, Eq)]
pub struct TrimbleTime {
    pub time: ClockTime,
    pub milliseconds: u16,
}

// Reads a Trimble SV6 string: the clock time and the milliseconds. Refuses with the first that holds of Length (1),
// FixedByte (2), NotDigit (3), Checksum (24), ValidityFlag (25), NoSuchDate (5) and NoSuchTime (6).
#[tactic(auto, unfolding(crate::specs::Trimble::read_trimble))]
pub fn read_trimble(s: &[u8]) -> Result<TrimbleTime, Error>
    ensures { answer_of result ≡ read_trimble s.now }
{
    layout::format::read::<37, Trimble>(s)
}
