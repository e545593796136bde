// The sum of a Trimble string, the exclusive or of its bytes, and hex digits.
ghost use Rattle.std.specs.Prelude.{◌≡◌};
ghost use Rattle.layout.specs.Layout.{FitsLayout};
ghost use Rattle.trimble_sv6.specs.Sum.{bytes_xor, trimble_sum, hex_digit};
ghost use Rattle.trimble_sv6.specs.Trimble.{trimble_layout};

// The exclusive or of the eight bytes of a word: of its halves, of theirs, and of theirs.
fn fold(w: u64) -> u8
    ensures { result ≡ bytes_xor 8 w }
{
    let four = w ^ w >> 32;
    let two = four ^ four >> 16;
    let one = two ^ two >> 8;
    (one % 256) as u8
}

// The exclusive or of the places 0 to 33, of which the last two hold `;*`.
pub(crate) fn trimble_sum(s: &[u8; 37]) -> u8
    requires { FitsLayout trimble_layout s.now }
    ensures { result ≡ trimble_sum s.now }
{
    let words = layout_words::word_at(s, 0)
        ^ layout_words::word_at(s, 8)
        ^ layout_words::word_at(s, 16)
        ^ layout_words::word_at(s, 24);
    fold(words) ^ b';' ^ b'*'
}

const HEX: [u8; 16] = *b"0123456789ABCDEF";

// The capital hex digit of the lowest four bits.
pub(crate) fn hex_digit(n: u8) -> u8
    ensures { result ≡ hex_digit n }
{
    HEX[(n % 16) as usize]
}
