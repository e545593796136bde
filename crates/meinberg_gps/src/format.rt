// The format of GPS strings.
ghost use Rattle.std.proofs.Common.{lit<};
ghost use Rattle.std.specs.Prelude.{◌≡◌, true};
ghost use Rattle.clock_time.specs.Lists.{slice};
ghost use Rattle.clock_time.specs.Reading.{answer_of};
ghost use Rattle.layout.specs.Layout.{fits_from, FitsLayout};
ghost use Rattle.meinberg_gps.specs.Gps.{gps_layout, gps, read_gps};

use crate::GpsTime;
use crate::fitting::Fitting;
use clock_time::Error;
use layout::format::StringFormat;

// The format, which has no value.
pub(crate) struct Gps;

impl StringFormat<66> for Gps {
    type Value = GpsTime;

    ghost format = { gps };

    ghost short = { lit< tt };

    fn pattern() -> &'static [u8; 66] {
        b"\x0200.00.00; 0; 00:00:00; ?00:00; uvxyzab; ??.????? ???.????? ????m\x03"
    }

    #[tactic(auto, unfolding(crate::specs::Gps::gps, crate::specs::Gps::read_gps))]
    fn read_if_fits(s: &[u8; 66]) -> Option<Result<GpsTime, Error>> {
        if fits(s) { Some(read_fitting(s)) } else { None }
    }
}

// Whether every place has a byte that may stand there.
fn fits(s: &[u8; 66]) -> bool
    ensures { result ≡ fits_from true 0 gps_layout s.now }
{
    layout_words::eight_fit(s, 0, *b"\x0200.00.0")
        & layout_words::eight_fit(s, 8, *b"0; 0; 00")
        & layout_words::eight_fit(s, 16, *b":00:00; ")
        & layout_words::eight_fit(s, 24, *b"?00:00; ")
        & layout_words::flags_fit(s, 32, *b"#*S!ARL", b';')
        & rest_fits(s)
}

// Reads a string that fits its layout.
#[tactic(auto, unfolding(crate::specs::Gps::gps, crate::specs::Gps::read_gps))]
fn read_fitting(s: &[u8; 66]) -> Result<GpsTime, Error>
    requires { FitsLayout gps_layout s.now }
    ensures { answer_of result ≡ read_gps s.now }
{
    Fitting { s }.read()
}

// Whether every fixed byte after the flags stands.
// Byte by byte: those between may be any, and samples would be longer.
fn rest_fits(s: &[u8; 66]) -> bool
    ensures { result ≡ fits_from true 40 (slice 40 26 gps_layout) s.now }
{
    (s[40] == b' ')
        & (s[43] == b'.')
        & (s[49] == b' ')
        & (s[53] == b'.')
        & (s[59] == b' ')
        & (s[64] == b'm')
        & (s[65] == 3)
}
