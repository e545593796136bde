// The reader of any format: what a format gives, and the one function that reads its strings.
ghost use Rattle.std.specs.Prelude.{◌≡◌, true, ◌<◌, ◌^◌, is_some, IfSome};
ghost use Rattle.clock_time.specs.Reading.{answer_of};
ghost use Rattle.layout.specs.Layout.{patterned, fits_from};
ghost use Rattle.layout.specs.Text.{Format, read_text};

use clock_time::Error;

// A format of strings of N bytes.
pub trait StringFormat<const N: usize> {
    // What a string of the format says.
    type Value;

    ghost format: { Format Self.Value };

    // The layout as a pattern.
    fn pattern() -> &'static [u8; N]
        ensures { patterned result.now ≡ format.layout };

    // Reads a string if every place has a byte that may stand there.
    fn read_if_fits(s: &[u8; N]) -> Option<Result<Self::Value, Error>>
        ensures fits { is_some result ≡ fits_from true 0 format.layout s.now }
        ensures reads { IfSome result (λ answer. answer_of answer ≡ read_text format s.now) };

    // No string is longer than memory.
    ghost short: { N < 2 ^ 63 };
}

// Reads a string of a format. One that does not fit is refused with the error of its layout.
pub fn read<const N: usize, F: StringFormat<N>>(s: &[u8]) -> Result<F::Value, Error>
    ensures { answer_of result ≡ read_text F.format s.now }
{
    let pattern: &[u8] = F::pattern();
    if let Some(places) = s.as_array::<N>() {
        if let Some(answer) = F::read_if_fits(places) {
            return answer;
        }
    }
    Err(crate::layout_error(pattern, s))
}
