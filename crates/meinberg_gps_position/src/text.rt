// The bytes of right-aligned numbers and of decimals.
ghost use Rattle.std.specs.Prelude.{◌≡◌};
ghost use Rattle.decimal.specs.Decimal.{digits};
ghost use Rattle.meinberg_gps_position.specs.Aligned.{blank_or, aligned};

// A blank for 0, else the last digit.
// By hand, since blanks stand for leading zeros.
#[tactic(auto, unfolding(crate::specs::Aligned::blank_or))]
fn digit_or_blank(n: u32) -> u8
    ensures { result ≡ blank_or n }
{
    if n == 0 {
        return b' ';
    }
    b'0' + (n % 10) as u8
}

// A number below 10,000, right-aligned.
#[tactic(auto, unfolding(crate::specs::Aligned::aligned, crate::specs::Aligned::padded))]
pub(crate) fn aligned_text(n: u32) -> [u8; 4]
    ensures { result ≡ aligned 4 n }
{
    let tens = n / 10;
    [
        digit_or_blank(tens / 10 / 10),
        digit_or_blank(tens / 10),
        digit_or_blank(tens),
        b'0' + (n % 10) as u8,
    ]
}

// The last four digits.
pub(crate) fn decimals(n: u32) -> [u8; 4]
    ensures { result ≡ digits 4 n }
{
    let [a, b] = decimal::two_digits(n / 100);
    let [c, d] = decimal::two_digits(n);
    [a, b, c, d]
}
