// The line of a clock time.
ghost use Rattle.std.specs.Prelude.{◌≡◌};
ghost use Rattle.listing_lines.specs.Line.{flags_text, time_line};

use clock_time::ClockTime;

fn flags_text(t: ClockTime) -> [u8; 7]
    ensures { result ≡ flags_text t }
{
    [
        layout::letter_or(t.unsynchronised, b'#', b'-'),
        layout::letter_or(t.unverified, b'*', b'-'),
        layout::letter_or(t.summer_time, b'S', b'-'),
        layout::letter_or(t.dst_change_announced, b'!', b'-'),
        layout::letter_or(t.leap_second_announced, b'A', b'-'),
        layout::letter_or(t.alternate_antenna, b'R', b'-'),
        layout::letter_or(t.second == 60, b'L', b'-'),
    ]
}

// The bytes of a line, its line feed included.
pub type LineBytes = [u8; 35];

// The line with the fields of `t`, the bytes of its offset and of its flags.
// Byte by byte, as a line is drawn: copying its short parts to their places would be longer.
pub fn time_line(t: ClockTime) -> LineBytes
    ensures { result ≡ time_line t }
{
    let zone = signed::offset::offset_text(t.utc_offset);
    let flags = flags_text(t);
    let century = decimal::two_digits(u32::from(t.year) / 10 / 10);
    let d = layout::clock_digits(t);
    [
        century[0],
        century[1],
        d.year[0],
        d.year[1],
        b'-',
        d.month[0],
        d.month[1],
        b'-',
        d.day[0],
        d.day[1],
        b' ',
        d.hour[0],
        d.hour[1],
        b':',
        d.minute[0],
        d.minute[1],
        b':',
        d.second[0],
        d.second[1],
        b' ',
        zone[0],
        zone[1],
        zone[2],
        zone[3],
        zone[4],
        zone[5],
        b' ',
        flags[0],
        flags[1],
        flags[2],
        flags[3],
        flags[4],
        flags[5],
        flags[6],
        b'\n',
    ]
}
