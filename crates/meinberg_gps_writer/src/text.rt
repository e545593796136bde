// The bytes of a whole GPS string.
ghost use Rattle.std.specs.Prelude.{◌≡◌};
ghost use Rattle.meinberg_gps.specs.Gps.{text_with, gps_text};

use meinberg_gps::GpsTime;
use meinberg_gps_position::PositionText;
use signed::offset::OffsetText;

// The layout with the bytes of its parts in it: a PZF string's date, time and flags, an offset, the letter for second
// 60 and a position.
fn text_with(pzf: [u8; 32], offset: OffsetText, leap: u8, position: PositionText) -> [u8; 66]
    ensures { result ≡ text_with pzf offset leap position }
{
    let mut line = *b"\x0200.00.00; 0; 00:00:00; ?00:00; uvxyzab; ??.????? ???.????? ????m\x03";
    line[..24].copy_from_slice(&pzf[..24]);
    line[24..30].copy_from_slice(&offset);
    line[32..38].copy_from_slice(&pzf[25..31]);
    line[38] = leap;
    line[41..64].copy_from_slice(&position);
    line
}

// The only string that could be read as `g`.
pub(crate) fn text_of(g: GpsTime) -> [u8; 66]
    ensures { result ≡ gps_text g }
{
    let t = g.time;
    let pzf = meinberg_pzf_writer::text_of(t);
    let offset = signed::offset::offset_text(t.utc_offset);
    let leap = layout::letter_if(t.second == 60, b'L');
    let position = meinberg_gps_position::position_text(g.position);
    text_with(pzf, offset, leap, position)
}
