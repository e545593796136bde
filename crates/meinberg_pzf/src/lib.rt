// The Meinberg PZF string.
#![tactic(auto)]

ghost use Rattle.std.specs.Prelude.{◌≡◌, true};
ghost use Rattle.std.proofs.Common.{lit<};
ghost use Rattle.clock_time.specs.Reading.{answer_of};
ghost use Rattle.layout.specs.Layout.{fits_from, FitsLayout};
ghost use Rattle.meinberg_pzf.specs.Pzf.{pzf_layout, pzf_offset, pzf_fields, pzf, read_pzf};

use clock_time::{ClockTime, Error};
use gregorian::FIRST_YEAR;
use layout::format::StringFormat;

// The format, which has no value.
struct Pzf;

impl StringFormat<32> for Pzf {
    type Value = ClockTime;

    ghost format = { pzf };

    ghost short = { lit< tt };

    fn pattern() -> &'static [u8; 32] {
        b"\x0200.00.00; 0; 00:00:00; tuvxyza\x03"
    }

    #[tactic(auto, unfolding(crate::specs::Pzf::pzf, crate::specs::Pzf::read_pzf))]
    fn read_if_fits(s: &[u8; 32]) -> Option<Result<ClockTime, Error>> {
        if fits(s) { Some(read_fitting(s)) } else { None }
    }
}

// Whether every place has a byte that may stand there.
fn fits(s: &[u8; 32]) -> bool
    ensures { result ≡ fits_from true 0 pzf_layout s.now }
{
    layout_words::eight_fit(s, 0, *b"\x0200.00.0")
        & layout_words::eight_fit(s, 8, *b"0; 0; 00")
        & layout_words::eight_fit(s, 16, *b":00:00; ")
        & layout_words::flags_fit(s, 24, *b"U#*S!AR", 3)
}

// Reads a string that fits its layout.
#[tactic(auto, using(layout::proofs::TextLaws::reading), unfolding(crate::specs::Pzf::pzf, crate::specs::Pzf::read_pzf))]
fn read_fitting(s: &[u8; 32]) -> Result<ClockTime, Error>
    requires { FitsLayout pzf_layout s.now }
    ensures { answer_of result ≡ read_pzf s.now }
{
    layout::check_clock(fields(s), false)
}

// The UTC offset that the flags t and x stand for.
#[tactic(auto, unfolding(crate::specs::Pzf::pzf_offset))]
pub fn offset_of(utc: bool, summer: bool) -> i16
    ensures { result ≡ pzf_offset utc summer }
{
    if utc {
        0
    } else {
        clock_time::cet_offset(summer)
    }
}

// Places, zone and flags are this format's own; the fields name each byte.
fn fields(s: &[u8; 32]) -> ClockTime
    requires { FitsLayout pzf_layout s.now }
    ensures { result ≡ pzf_fields s.now }
{
    let [day, month, year] = layout_words::numbers_at(s, 1);
    let [hour, minute, second] = layout_words::numbers_at(s, 14);
    let utc = s[24] == b'U';
    let summer = s[27] == b'S';
    ClockTime {
        year: gregorian::full_year(FIRST_YEAR, year),
        month,
        day,
        weekday: s[11] % 16,
        hour,
        minute,
        second,
        utc_offset: offset_of(utc, summer),
        unsynchronised: s[25] == b'#',
        unverified: s[26] == b'*',
        summer_time: summer,
        dst_change_announced: s[28] == b'!',
        leap_second_announced: s[29] == b'A',
        alternate_antenna: s[30] == b'R',
    }
}

// Reads a Meinberg PZF string. Refuses with the first that holds of Length (1), FixedByte (2), NotDigit (3), FlagLetter
// (4), NoSuchDate (5), NoSuchTime (6) and Weekday (7).
#[tactic(auto, unfolding(crate::specs::Pzf::read_pzf))]
pub fn read_pzf(s: &[u8]) -> Result<ClockTime, Error>
    ensures { answer_of result ≡ read_pzf s.now }
{
    layout::format::read::<32, Pzf>(s)
}
