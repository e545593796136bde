// The writer of the Meinberg PZF string.
#![tactic(auto)]

ghost use Rattle.std.specs.Prelude.{◌≡◌};
ghost use Rattle.clock_time.specs.Writing.{written};
ghost use Rattle.meinberg_pzf.specs.Pzf.{pzf_text, pzf_representable, write_pzf};

use clock_time::{ClockTime, Error};

// The bytes of a PZF string.
pub type PzfBytes = [u8; 32];

// The only PZF string that could be read as `t`.
pub fn text_of(t: ClockTime) -> PzfBytes
    ensures { result ≡ pzf_text t }
{
    let d = layout::clock_digits(t);
    [
        2,
        d.day[0],
        d.day[1],
        b'.',
        d.month[0],
        d.month[1],
        b'.',
        d.year[0],
        d.year[1],
        b';',
        b' ',
        b'0' + t.weekday % 10,
        b';',
        b' ',
        d.hour[0],
        d.hour[1],
        b':',
        d.minute[0],
        d.minute[1],
        b':',
        d.second[0],
        d.second[1],
        b';',
        b' ',
        layout::letter_if(t.utc_offset == 0, b'U'),
        layout::letter_if(t.unsynchronised, b'#'),
        layout::letter_if(t.unverified, b'*'),
        layout::letter_if(t.summer_time, b'S'),
        layout::letter_if(t.dst_change_announced, b'!'),
        layout::letter_if(t.leap_second_announced, b'A'),
        layout::letter_if(t.alternate_antenna, b'R'),
        3,
    ]
}

// Whether the flags of a PZF string can represent the zone of `t`.
fn is_representable(t: ClockTime) -> bool
    ensures { result ≡ pzf_representable t }
{
    meinberg_pzf::offset_of(t.utc_offset == 0, t.summer_time) == t.utc_offset
}

// Writes a clock time as a Meinberg PZF string to the front of `out`. Refuses with Unrepresentable (23) if no such
// string is read as it, then with LentMemory (20) if there is no room for 32 bytes.
// Text and test are this format's own: see `clock_time::write_bytes`.
pub fn write_pzf(t: ClockTime, out: &mut [u8]) -> Result<usize, Error>
    ensures { written result out.new ≡ write_pzf t out.old }
{
    let line = text_of(t);
    let representable = calendar::representable::is_representable(t) & is_representable(t);
    clock_time::write_bytes(representable, &line, out)
}
