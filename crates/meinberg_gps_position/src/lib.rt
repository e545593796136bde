// The position of a GPS string: two angles and a height, read from the string and written as its bytes.
#![tactic(auto)]

ghost use Rattle.std.specs.Prelude.{◌≡◌, true, ◌&&◌, [], ◌∷◌, ◌≤◌, length};
ghost use Rattle.clock_time.specs.Reading.{answer_of};
ghost use Rattle.layout.specs.Layout.{number};
ghost use Rattle.decimal.specs.Decimal.{value};
ghost use Rattle.meinberg_gps_position.specs.Aligned.{are_digits, right_aligned, digits_or_blanks};
ghost use Rattle.meinberg_gps_position.specs.Position.{position_digits, position_from, read_position};
ghost use Rattle.meinberg_gps_position.specs.Position.{position_text, position_representable};

use angle::{Angle, AngleDigits, LATITUDE, LONGITUDE};
use clock_time::{Error, Position};

mod angle;
mod digits;
mod text;

// The position of two angles and a height. Refuses with Position (9) if a letter or a magnitude is none.
fn position_from(lat: Angle, lon: Angle, height: u16) -> Result<Position, Error>
    ensures { answer_of result ≡ position_from lat.letter lat.magnitude lon.letter lon.magnitude height }
{
    let latitude = LATITUDE.signed(lat).ok_or(Error::Position)?;
    let longitude = LONGITUDE.signed(lon).ok_or(Error::Position)?;
    Ok(Position {
        latitude,
        longitude,
        height,
    })
}

// Reads the position of a GPS string; the string's other places play no part. Refuses with Position (9) if it is none.
// Latitude has two places before the point: a blank stands for the third.
// Each number is an array of its bytes, by their places.
pub fn read_position(s: &[u8]) -> Result<Position, Error>
    ensures { answer_of result ≡ read_position s.now }
{
    if s.len() < 64 {
        return Err(Error::Position);
    }
    let latitude = AngleDigits {
        whole: [b' ', s[41], s[42]],
        decimals: [s[44], s[45], s[46], s[47]],
    };
    let longitude = AngleDigits {
        whole: [s[50], s[51], s[52]],
        decimals: [s[54], s[55], s[56], s[57]],
    };
    let height = [s[60], s[61], s[62], s[63]];
    if !(latitude.stand() & longitude.stand() & digits::are_aligned(height)) {
        return Err(Error::Position);
    }
    let north = Angle {
        letter: s[48],
        magnitude: latitude.magnitude(),
    };
    let east = Angle {
        letter: s[58],
        magnitude: longitude.magnitude(),
    };
    position_from(north, east, digits::number(height) as u16)
}

// Latitude, a blank, longitude, a blank, height.
pub type PositionText = [u8; 23];

// The bytes of a position, as a GPS string has them at its places 41 to 63.
pub fn position_text(p: Position) -> PositionText
    ensures { result ≡ position_text p }
{
    let latitude = LATITUDE.text(p.latitude);
    let longitude = LONGITUDE.text(p.longitude);
    let height = text::aligned_text(p.height as u32);
    let mut bytes = [b' '; 23];
    bytes[..8].copy_from_slice(&latitude[1..]);
    bytes[9..18].copy_from_slice(&longitude);
    bytes[19..].copy_from_slice(&height);
    bytes
}

// Whether a position is one that these bytes can represent.
#[tactic(auto, unfolding(crate::specs::Position::position_representable))]
pub fn is_representable(p: Position) -> bool
    ensures { result ≡ position_representable p }
{
    (signed::magnitude(p.latitude) <= LATITUDE.limit)
        & (signed::magnitude(p.longitude) <= LONGITUDE.limit)
        & (p.height <= 9999)
}
