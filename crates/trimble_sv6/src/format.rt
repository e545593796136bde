// The format of Trimble strings.
ghost use Rattle.std.proofs.Common.{lit<};
ghost use Rattle.std.specs.Prelude.{◌≡◌, true, [], ◌∷◌};
ghost use Rattle.clock_time.specs.Reading.{answer_of};
ghost use Rattle.layout.specs.Layout.{digit, free, printable, places, fits_from, FitsLayout};
ghost use Rattle.trimble_sv6.specs.Trimble.{trimble_layout, trimble, read_trimble};

use crate::TrimbleTime;
use crate::fitting::Fitting;
use clock_time::Error;
use layout::format::StringFormat;

// The format, which has no value.
pub(crate) struct Trimble;

impl StringFormat<37> for Trimble {
    type Value = TrimbleTime;

    ghost format = { trimble };

    ghost short = { lit< tt };

    fn pattern() -> &'static [u8; 37] {
        b">RTM0000000000000000000000?rrrrr;*??<"
    }

    #[tactic(auto, unfolding(crate::specs::Trimble::trimble, crate::specs::Trimble::read_trimble))]
    fn read_if_fits(s: &[u8; 37]) -> Option<Result<TrimbleTime, Error>> {
        if fits(s) { Some(read_fitting(s)) } else { None }
    }
}

// Whether every place has a byte that may stand there.
fn fits(s: &[u8; 37]) -> bool
    ensures { result ≡ fits_from true 0 trimble_layout s.now }
{
    layout_words::eight_fit(s, 0, *b">RTM0000")
        & layout_words::eight_fit(s, 8, *b"00000000")
        & layout_words::eight_fit(s, 16, *b"00000000")
        & tail_fits(s)
        & end_fits(s)
}

// Reads a string that fits its layout.
#[tactic(auto, unfolding(crate::specs::Trimble::trimble, crate::specs::Trimble::read_trimble))]
fn read_fitting(s: &[u8; 37]) -> Result<TrimbleTime, Error>
    requires { FitsLayout trimble_layout s.now }
    ensures { answer_of result ≡ read_trimble s.now }
{
    Fitting { s }.read()
}

// Whether the places 24 to 31 have two digits, any byte and the five printable bytes rrrrr. As in `layout_words`, a
// byte's difference from a sample has the high bit, or gets it when a number is added, if the byte may not stand there:
// a digit's is at most 9, and 127 less a byte from 32 to 127 is at most 95. The byte 127 gets it when 1 is added.
fn tail_fits(s: &[u8; 37]) -> bool
    ensures { result ≡ fits_from true 24 (digit ∷ digit ∷ free ∷ places 5 printable) s.now }
{
    let bytes = layout_words::word_at(s, 24);
    let difference = bytes ^ 0x7f7f7f7f7f003030;
    let sum = difference.wrapping_add(0x2020202020007676);
    let next = bytes.wrapping_add(0x0101010101000000);
    ((difference | sum) & 0x8080808080008080 == 0) & ((bytes | next) & 0x8080808080008080 == 0)
}

// Whether the places 32 to 36 have `;*`, any two bytes and `<`.
fn end_fits(s: &[u8; 37]) -> bool
    ensures { result ≡ fits_from true 32 (59 ∷ 42 ∷ free ∷ free ∷ 60 ∷ []) s.now }
{
    (s[32] == b';') & (s[33] == b'*') & (s[36] == b'<')
}
