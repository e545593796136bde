// The Meinberg GPS string.
#![tactic(auto)]

ghost use Rattle.std.specs.Prelude.{◌≡◌};
ghost use Rattle.clock_time.specs.Reading.{answer_of};
ghost use Rattle.meinberg_gps.specs.Gps.{read_gps};

use clock_time::{ClockTime, Error, Position};
use format::Gps;

mod fitting;
mod format;

// What a GPS string says: a clock time and the clock's position. Not one generic struct for GPS, Trimble and minute,
// since definitions and theorems name the fields of each.
#[derive(Clone, Copy, Debug, PartialEq, Eq)]
pub struct GpsTime {
    pub time: ClockTime,
    pub position: Position,
}

// Reads a Meinberg GPS string: the clock time and the position. Refuses with the first that holds of Length (1),
// FixedByte (2), NotDigit (3), FlagLetter (4), UtcOffset (8), Position (9), NoSuchDate (5), NoSuchTime (6) and Weekday
// (7).
#[tactic(auto, unfolding(crate::specs::Gps::read_gps))]
pub fn read_gps(s: &[u8]) -> Result<GpsTime, Error>
    ensures { answer_of result ≡ read_gps s.now }
{
    layout::format::read::<66, Gps>(s)
}
