// Four bytes as digits, or as a right-aligned number.
ghost use Rattle.std.specs.Prelude.{◌≡◌, true, nat_le, ◌&&◌};
ghost use Rattle.decimal.specs.Decimal.{value};
ghost use Rattle.meinberg_gps_position.specs.Aligned.{are_digits, right_aligned, digits_or_blanks};

use decimal::is_digit;

// Whether all four are digits.
pub(crate) fn are_digits(bytes: [u8; 4]) -> bool
    ensures { result ≡ are_digits bytes }
{
    let [a, b, c, d] = bytes;
    is_digit(a) & (is_digit(b) & (is_digit(c) & is_digit(d)))
}

// Whether a byte may begin a number of several digits.
fn is_first_digit(b: u8) -> bool
    ensures { result ≡ (nat_le 49 b && nat_le b 57) }
{
    matches!(b, b'1'..=b'9')
}

// Whether they are a right-aligned number, with blanks for leading zeros.
pub(crate) fn are_aligned(bytes: [u8; 4]) -> bool
    ensures { result ≡ right_aligned bytes }
{
    let [a, b, c, d] = bytes;
    let one = is_digit(d);
    let two = is_digit(c) & one;
    let three = is_digit(b) & two;
    let last = (c == b' ') & one | is_first_digit(c) & one;
    let rest = (b == b' ') & last | is_first_digit(b) & two;
    (a == b' ') & rest | is_first_digit(a) & three
}

// The number of digits with blanks among them: the low half of a digit's byte is its number, that of a blank is 0.
pub(crate) fn number(bytes: [u8; 4]) -> u32
    requires { digits_or_blanks bytes ≡ true }
    ensures { result ≡ value bytes }
{
    let [a, b, c, d] = bytes;
    1000 * ((a % 16) as u32) + 100 * ((b % 16) as u32) + 10 * ((c % 16) as u32) + (d % 16) as u32
}
