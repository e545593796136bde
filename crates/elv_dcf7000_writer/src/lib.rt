// The writer of the string of an ELV DCF7000 clock.
#![tactic(auto)]

ghost use Rattle.std.specs.Prelude.{◌≡◌};
ghost use Rattle.clock_time.specs.Writing.{written};
ghost use Rattle.elv_dcf7000.specs.Elv.{flag_sum, text_with, elv_text, elv_representable, write_elv};

use clock_time::{ClockTime, Error};

// The number of the flags.
fn flag_sum(summer: bool, change: bool, unsynchronised: bool) -> u8
    ensures { result ≡ flag_sum summer change unsynchronised }
{
    u8::from(summer) + 2 * u8::from(change) + 4 * u8::from(unsynchronised)
}

// The layout with the fields of `t` and the number of its flags in it.
fn text_with(t: ClockTime, flags: u8) -> [u8; 21]
    ensures { result ≡ text_with t flags }
{
    let d = layout::clock_digits(t);
    let [tens, ones] = decimal::two_digits(u32::from(flags));
    [
        d.year[0],
        d.year[1],
        b'-',
        d.month[0],
        d.month[1],
        b'-',
        d.day[0],
        d.day[1],
        b'-',
        d.hour[0],
        d.hour[1],
        b'-',
        d.minute[0],
        d.minute[1],
        b'-',
        d.second[0],
        d.second[1],
        b'-',
        tens,
        ones,
        b'\r',
    ]
}

// The only string that could be read as `t`.
#[tactic(auto, unfolding(elv_dcf7000::specs::Elv::elv_text))]
fn text_of(t: ClockTime) -> [u8; 21]
    ensures { result ≡ elv_text t }
{
    let flags = flag_sum(t.summer_time, t.dst_change_announced, t.unsynchronised);
    text_with(t, flags)
}

// Whether an ELV string can represent `t`.
fn is_representable(t: ClockTime) -> bool
    ensures { result ≡ elv_representable t }
{
    let zone = clock_time::cet_offset(t.summer_time) == t.utc_offset;
    let weekday = calendar::date::weekday_or_zero(t.date());
    zone & (weekday == t.weekday) & !t.unverified & !t.leap_second_announced & !t.alternate_antenna
}

// Writes a clock time as an ELV DCF7000 string to the front of `out`. Refuses with Unrepresentable (23) if no such
// string is read as it, then with LentMemory (20) if there is no room for 21 bytes.
// Text and test are this format's own: see `clock_time::write_bytes`.
pub fn write_elv(t: ClockTime, out: &mut [u8]) -> Result<usize, Error>
    ensures { written result out.new ≡ write_elv t out.old }
{
    let line = text_of(t);
    let representable = calendar::representable::is_representable(t) & is_representable(t);
    clock_time::write_bytes(representable, &line, out)
}
