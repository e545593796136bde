// The Meinberg standard string.
#![tactic(auto)]

ghost use Rattle.std.specs.Prelude.{◌≡◌, true};
ghost use Rattle.std.proofs.Common.{lit<};
ghost use Rattle.clock_time.specs.Reading.{answer_of};
ghost use Rattle.layout.specs.Layout.{fits_from, FitsLayout};
ghost use Rattle.meinberg_standard.specs.Standard.{standard_layout, standard_zone, standard_fields, standard};
ghost use Rattle.meinberg_standard.specs.Standard.{read_standard};

use clock_time::{ClockTime, Error};
use gregorian::FIRST_YEAR;
use layout::format::StringFormat;

// The format, which has no value.
struct Standard;

impl StringFormat<32> for Standard {
    type Value = ClockTime;

    ghost format = { standard };

    ghost short = { lit< tt };

    fn pattern() -> &'static [u8; 32] {
        b"\x02D:00.00.00;T:0;U:00.00.00;uvXY\x03"
    }

    #[tactic(auto, unfolding(crate::specs::Standard::standard, crate::specs::Standard::read_standard))]
    fn read_if_fits(s: &[u8; 32]) -> Option<Result<ClockTime, Error>> {
        if fits(s) { Some(read_fitting(s)) } else { None }
    }
}

// Whether every place has a byte that may stand there.
// The last bytes one by one: digits, flags and letters fit no sample of eight.
fn fits(s: &[u8; 32]) -> bool
    ensures { result ≡ fits_from true 0 standard_layout s.now }
{
    layout_words::eight_fit(s, 0, *b"\x02D:00.00")
        & layout_words::eight_fit(s, 8, *b".00;T:0;")
        & layout_words::eight_fit(s, 16, *b"U:00.00.")
        & decimal::is_digit(s[24])
        & decimal::is_digit(s[25])
        & (s[26] == b';')
        & ((s[27] == b' ') | (s[27] == b'#'))
        & ((s[28] == b' ') | (s[28] == b'*'))
        & ((s[29] == b' ') | (s[29] == b'U') | (s[29] == b'S'))
        & ((s[30] == b' ') | (s[30] == b'!') | (s[30] == b'A'))
        & (s[31] == 3)
}

// Reads a string that fits its layout.
#[tactic(auto, using(layout::proofs::TextLaws::reading), unfolding(crate::specs::Standard::standard, crate::specs::Standard::read_standard))]
fn read_fitting(s: &[u8; 32]) -> Result<ClockTime, Error>
    requires { FitsLayout standard_layout s.now }
    ensures { answer_of result ≡ read_standard s.now }
{
    layout::check_clock(fields(s), false)
}

// The UTC offset that the zone letter stands for.
#[tactic(auto, unfolding(crate::specs::Standard::standard_zone))]
pub fn zone_offset(letter: u8) -> i16
    ensures { result ≡ standard_zone letter }
{
    if letter == b'U' {
        0
    } else {
        clock_time::cet_offset(letter == b'S')
    }
}

// Places, zone and flags are this format's own; the fields name each byte.
fn fields(s: &[u8; 32]) -> ClockTime
    requires { FitsLayout standard_layout s.now }
    ensures { result ≡ standard_fields s.now }
{
    let [day, month, year] = layout_words::numbers_at(s, 3);
    let [hour, minute, second] = layout_words::numbers_at(s, 18);
    let zone = s[29];
    let announced = s[30];
    ClockTime {
        year: gregorian::full_year(FIRST_YEAR, year),
        month,
        day,
        weekday: s[14] % 16,
        hour,
        minute,
        second,
        utc_offset: zone_offset(zone),
        unsynchronised: s[27] == b'#',
        unverified: s[28] == b'*',
        summer_time: zone == b'S',
        dst_change_announced: announced == b'!',
        leap_second_announced: announced == b'A',
        alternate_antenna: false,
    }
}

// Reads a Meinberg standard string. Refuses with the first that holds of Length (1), FixedByte (2), NotDigit (3),
// FlagLetter (4), NoSuchDate (5), NoSuchTime (6) and Weekday (7).
#[tactic(auto, unfolding(crate::specs::Standard::read_standard))]
pub fn read_standard(s: &[u8]) -> Result<ClockTime, Error>
    ensures { answer_of result ≡ read_standard s.now }
{
    layout::format::read::<32, Standard>(s)
}
