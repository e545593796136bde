// Time strings of any kind: telling the kind of a string, and reading a string of a named kind.
#![tactic(auto)]

ghost use Rattle.std.specs.Prelude.{◌≡◌};
ghost use Rattle.clock_time.specs.Reading.{answer_of};
ghost use Rattle.time_string.specs.Row.{reading_time};
ghost use Rattle.time_string.specs.Kind.{kind_of, kind_number, kind_named, read_as};

use clock_time::{ClockTime, Error};
use meinberg_gps::GpsTime;

// The kinds of time strings.
#[derive(Clone, Copy, Debug, PartialEq, Eq, Hash, Drop)]
pub enum Kind {
    Standard = 0,
    Pzf = 1,
    Gps = 2,
    Elv = 3,
}

impl From<Kind> for u8 {
    ghost from_gives = { λ k n. n ≡ kind_number k };

    // The number of a kind in C.
    fn from(kind: Kind) -> u8 {
        kind as u8
    }
}

impl TryFrom<u8> for Kind {
    type Error = Error;

    ghost try_from_gives = { λ n r. answer_of r ≡ kind_named n };

    // The kind that a number from C names. Refuses with Length (1) if it names none.
    fn try_from(number: u8) -> Result<Kind, Error> {
        match number {
            0 => Ok(Kind::Standard),
            1 => Ok(Kind::Pzf),
            2 => Ok(Kind::Gps),
            3 => Ok(Kind::Elv),
            _ => Err(Error::Length),
        }
    }
}

// What a string says: a clock time, with a position if the string has one.
#[derive(Clone, Copy, Debug, PartialEq, Eq)]
pub enum Reading {
    Time(ClockTime),
    TimeAndPosition(GpsTime),
}

impl Reading {
    // The clock time of a reading, without its position.
    pub fn time(self) -> ClockTime
        ensures { result ≡ reading_time self }
    {
        match self {
            Reading::Time(t) => t,
            Reading::TimeAndPosition(g) => g.time,
        }
    }
}

// The kind of a string: by its length, and of the two that are 32 long by the byte at place 1. Refuses with Length (1)
// if no kind has that length.
pub fn kind_of(s: &[u8]) -> Result<Kind, Error>
    ensures { answer_of result ≡ kind_of s.now }
{
    match s.len() {
        66 => Ok(Kind::Gps),
        32 if s[1] == b'D' => Ok(Kind::Standard),
        32 => Ok(Kind::Pzf),
        21 => Ok(Kind::Elv),
        _ => Err(Error::Length), // no kind has another length
    }
}

// Reads a string of the kind that the caller names, as that kind's own reader does.
#[tactic(auto, using(crate::proofs::ReadLaws::by_kind))]
pub fn read(kind: Kind, s: &[u8]) -> Result<Reading, Error>
    ensures { answer_of result ≡ read_as kind s.now }
{
    let reading = match kind {
        Kind::Standard => Reading::Time(meinberg_standard::read_standard(s)?),
        Kind::Pzf => Reading::Time(meinberg_pzf::read_pzf(s)?),
        Kind::Gps => Reading::TimeAndPosition(meinberg_gps::read_gps(s)?),
        Kind::Elv => Reading::Time(elv_dcf7000::read_elv(s)?),
    };
    Ok(reading)
}
