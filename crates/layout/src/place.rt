// The places of a layout, each as a byte of its pattern stands for it.
use clock_time::Error;

// What may stand at a place.
#[derive(Clone, Copy)]
pub(crate) enum Place {
    // This byte and no other.
    Fixed(u8),
    // A decimal digit.
    Digit,
    // Any byte.
    Any,
    // A byte from 32 to 126.
    Printable,
    // This letter or a blank.
    Flag(u8),
    // One of two letters, or a blank.
    Either(u8, u8),
}

impl Place {
    ghost use Rattle.std.specs.Prelude.{◌≡◌};
    ghost use Rattle.clock_time.specs.Errors.{error_number};
    ghost use Rattle.layout.specs.Layout.{pattern_place, allowed, error_at};
    ghost use Rattle.layout.specs.Places.{place_number};

    // The place that a byte of a pattern stands for: a flag's letter for the flag, `r` for a byte from 32 to 126, `0`
    // for a digit, `?` for any byte, another for itself.
    #[tactic(auto, unfolding(crate::specs::Layout::pattern_place, crate::specs::Layout::sample_place))]
    pub(crate) fn of(p: u8) -> Place
        ensures { place_number result ≡ pattern_place p }
    {
        match p {
            b't' => Place::Flag(b'U'),
            b'u' => Place::Flag(b'#'),
            b'v' => Place::Flag(b'*'),
            b'x' => Place::Flag(b'S'),
            b'y' => Place::Flag(b'!'),
            b'z' => Place::Flag(b'A'),
            b'a' => Place::Flag(b'R'),
            b'b' => Place::Flag(b'L'),
            b'X' => Place::Either(b'U', b'S'),
            b'Y' => Place::Either(b'!', b'A'),
            b'r' => Place::Printable,
            b'0' => Place::Digit,
            b'?' => Place::Any,
            _ => Place::Fixed(p),
        }
    }

    // Whether a byte may stand there.
    #[tactic(auto, unfolding(crate::specs::Layout::allowed))]
    pub(crate) fn allows(self, b: u8) -> bool
        ensures { result ≡ allowed (place_number self) b }
    {
        match self {
            Place::Fixed(p) => b == p,
            Place::Digit => decimal::is_digit(b),
            Place::Any => true,
            Place::Printable => (32 <= b) & (b <= 126),
            Place::Flag(letter) => (b == b' ') | (b == letter),
            Place::Either(first, second) => (b == b' ') | (b == first) | (b == second),
        }
    }

    // The error of a byte that may not stand there.
    #[tactic(auto, unfolding(crate::specs::Layout::error_at))]
    pub(crate) fn error(self) -> Error
        ensures { error_number result ≡ error_at (place_number self) }
    {
        match self {
            Place::Fixed(_) | Place::Printable => Error::FixedByte,
            Place::Digit => Error::NotDigit,
            _ => Error::FlagLetter,
        }
    }
}
