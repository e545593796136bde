// The string of an ELV DCF7000 clock.
#![tactic(auto)]

ghost use Rattle.std.specs.Prelude.{◌≡◌, true, false};
ghost use Rattle.std.proofs.Common.{lit<};
ghost use Rattle.clock_time.specs.Reading.{answer_of};
ghost use Rattle.layout.specs.Layout.{fits_from, FitsLayout};
ghost use Rattle.elv_dcf7000.specs.Elv.{elv_layout, elv_flag_fault, elv_offset, sent_fields, elv, read_elv};

use clock_time::{ClockTime, Error};
use gregorian::FIRST_YEAR;
use layout::format::StringFormat;

// The format, which has no value.
struct Elv;

impl StringFormat<21> for Elv {
    type Value = ClockTime;

    ghost format = { elv };

    ghost short = { lit< tt };

    fn pattern() -> &'static [u8; 21] {
        b"00-00-00-00-00-00-00\r"
    }

    #[tactic(auto, unfolding(crate::specs::Elv::elv, crate::specs::Elv::read_elv))]
    fn read_if_fits(s: &[u8; 21]) -> Option<Result<ClockTime, Error>> {
        if fits(s) { Some(read_fitting(s)) } else { None }
    }
}

// Whether every place has a byte that may stand there.
// The last eight places begin with three that are tested already.
fn fits(s: &[u8; 21]) -> bool
    ensures { result ≡ fits_from true 0 elv_layout s.now }
{
    layout_words::eight_fit(s, 0, *b"00-00-00")
        & layout_words::eight_fit(s, 8, *b"-00-00-0")
        & layout_words::eight_fit(s, 13, *b"???0-00\r")
}

// Reads a string that fits its layout.
fn read_fitting(s: &[u8; 21]) -> Result<ClockTime, Error>
    requires { FitsLayout elv_layout s.now }
    ensures { answer_of result ≡ read_elv s.now }
{
    if has_flag_fault(s) {
        return Err(Error::FlagLetter);
    }
    layout::check_without_weekday(sent_fields(s))
}

// Whether the number of the flags is above 7.
fn has_flag_fault(s: &[u8; 21]) -> bool
    requires { FitsLayout elv_layout s.now }
    ensures { result ≡ elv_flag_fault s.now }
{
    (s[18] != b'0') | (b'7' < s[19])
}

// The UTC offset with and without summer time.
#[tactic(auto, unfolding(crate::specs::Elv::elv_offset))]
pub fn offset_of(summer: bool) -> i16
    ensures { result ≡ elv_offset summer }
{
    clock_time::cet_offset(summer)
}

// The fields that are sent, and 0 for a weekday.
// Places, zone and flags are this format's own; the fields name each byte.
fn sent_fields(s: &[u8; 21]) -> ClockTime
    requires { FitsLayout elv_layout s.now × (elv_flag_fault s.now ≡ false) }
    ensures { result ≡ sent_fields s.now }
{
    let [year, month, day] = layout_words::numbers_at(s, 0);
    let [hour, minute, second] = layout_words::numbers_at(s, 9);
    let flags = s[19] % 16;
    let summer = flags % 2 == 1;
    ClockTime {
        year: gregorian::full_year(FIRST_YEAR, year),
        month,
        day,
        weekday: 0,
        hour,
        minute,
        second,
        utc_offset: offset_of(summer),
        unsynchronised: flags / 4 % 2 == 1,
        unverified: false,
        summer_time: summer,
        dst_change_announced: flags / 2 % 2 == 1,
        leap_second_announced: false,
        alternate_antenna: false,
    }
}

// Reads an ELV DCF7000 string. Refuses with the first that holds of Length (1), FixedByte (2), NotDigit (3), FlagLetter
// (4), NoSuchDate (5) and NoSuchTime (6).
#[tactic(auto, unfolding(crate::specs::Elv::read_elv))]
pub fn read_elv(s: &[u8]) -> Result<ClockTime, Error>
    ensures { answer_of result ≡ read_elv s.now }
{
    layout::format::read::<21, Elv>(s)
}
