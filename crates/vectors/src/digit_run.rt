// Runs of digits: reading one, and writing a number as a given count of them.
ghost use Rattle.std.specs.Prelude.{◌≡◌, ◌≤◌, ◌++◌, length, drop};
ghost use Rattle.clock_time.specs.Writing.{written};
ghost use Rattle.decimal.specs.Decimal.{digits};
ghost use Rattle.vectors.specs.DigitRun.{read_digits, digits_answer, write_digits};

use clock_time::Error;

// Why a run of digits is not read: the place of the first byte that is no digit, or more than 19 bytes.
#[derive(Clone, Copy, Debug, PartialEq, Eq)]
pub enum DigitsError {
    NotDigit(usize),
    TooLong,
}

// Reads a run of at most 19 digits.
// Not `parse`, since the place of the first byte that is no digit is an answer.
pub(crate) fn read_digits(s: &[u8]) -> Result<u64, DigitsError>
    ensures { digits_answer result ≡ read_digits s.now }
{
    if 19 < s.len() {
        return Err(DigitsError::TooLong);
    }
    let mut number: u64 = 0;
    for (i, b) in s.iter().enumerate() {
        if !decimal::is_digit(*b) {
            return Err(DigitsError::NotDigit(i));
        }
        number = 10 * number + u64::from(*b - b'0');
    }
    Ok(number)
}

// Fills the first `count` places of `out` with the last `count` digits of `number`.
// Not `{n}`: as many digits as are asked for, leading zeros too.
fn fill_digits(number: u64, count: usize, out: &mut [u8])
    requires { count ≤ length out.old }
    ensures { out.new ≡ digits count number ++ drop count out.old }
{
    let mut rest = number;
    for i in (0..count).rev() {
        out[i] = b'0' + (rest % 10) as u8;
        rest /= 10;
    }
}

// Writes `number` as `count` digits to the front of `out`. Refuses with Unrepresentable (23) if it has more digits or
// `count` is above 19, then with LentMemory (20) if there is no room.
pub(crate) fn write_digits(number: u64, count: usize, out: &mut [u8]) -> Result<usize, Error>
    ensures { written result out.new ≡ write_digits number count out.old }
{
    if 19 < count {
        return Err(Error::Unrepresentable);
    }
    if 10u64.pow(count as u32) <= number {
        return Err(Error::Unrepresentable);
    }
    if out.len() < count {
        return Err(Error::LentMemory);
    }
    fill_digits(number, count, out);
    Ok(count)
}
