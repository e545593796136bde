// The writer of the Meinberg standard string.
#![tactic(auto)]

ghost use Rattle.std.specs.Prelude.{◌≡◌};
ghost use Rattle.clock_time.specs.Writing.{written};
ghost use Rattle.meinberg_standard.specs.Standard.{zone_letter, announced_letter, standard_text};
ghost use Rattle.meinberg_standard.specs.Standard.{standard_representable, write_standard};

use clock_time::{ClockTime, Error};

fn zone_letter(offset: i16, summer: bool) -> u8
    ensures { result ≡ zone_letter offset summer }
{
    if summer {
        return b'S';
    }
    if offset == 0 {
        return b'U';
    }
    b' '
}

#[tactic(auto, unfolding(meinberg_standard::specs::Standard::announced_letter))]
fn announced_letter(change: bool, leap: bool) -> u8
    ensures { result ≡ announced_letter change leap }
{
    if change {
        return b'!';
    }
    layout::letter_if(leap, b'A')
}

// The only standard string that could be read as `t`.
fn text_of(t: ClockTime) -> [u8; 32]
    ensures { result ≡ standard_text t }
{
    let d = layout::clock_digits(t);
    [
        2,
        b'D',
        b':',
        d.day[0],
        d.day[1],
        b'.',
        d.month[0],
        d.month[1],
        b'.',
        d.year[0],
        d.year[1],
        b';',
        b'T',
        b':',
        b'0' + t.weekday % 10,
        b';',
        b'U',
        b':',
        d.hour[0],
        d.hour[1],
        b'.',
        d.minute[0],
        d.minute[1],
        b'.',
        d.second[0],
        d.second[1],
        b';',
        layout::letter_if(t.unsynchronised, b'#'),
        layout::letter_if(t.unverified, b'*'),
        zone_letter(t.utc_offset, t.summer_time),
        announced_letter(t.dst_change_announced, t.leap_second_announced),
        3,
    ]
}

// Whether the letters of a standard string can represent `t`.
fn is_representable(t: ClockTime) -> bool
    ensures { result ≡ standard_representable t }
{
    let zone = meinberg_standard::zone_offset(zone_letter(t.utc_offset, t.summer_time));
    (zone == t.utc_offset)
        & !(t.dst_change_announced & t.leap_second_announced)
        & !t.alternate_antenna
}

// Writes a clock time as a Meinberg standard string to the front of `out`. Refuses with Unrepresentable (23) if no such
// string is read as it, then with LentMemory (20) if there is no room for 32 bytes.
// Text and test are this format's own: see `clock_time::write_bytes`.
pub fn write_standard(t: ClockTime, out: &mut [u8]) -> Result<usize, Error>
    ensures { written result out.new ≡ write_standard t out.old }
{
    let line = text_of(t);
    let representable = calendar::representable::is_representable(t) & is_representable(t);
    clock_time::write_bytes(representable, &line, out)
}
