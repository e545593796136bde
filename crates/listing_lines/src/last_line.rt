// The last line of a listing: its totals in decimal.
ghost use Rattle.std.specs.Prelude.{◌≡◌};
ghost use Rattle.listing_lines.specs.Totals.{totals_line};

use crate::Totals;
use arrayvec::ArrayString;
use itoa::Buffer;

// The length of the line if each total has 20 digits.
const LONGEST: usize = 86;

pub(crate) fn totals_line(t: Totals) -> ArrayString<LONGEST>
    ensures { result.bytes ≡ totals_line t }
{
    let mut line = ArrayString::new();
    let mut digits = Buffer::new();
    line.push_str("frames ");
    line.push_str(digits.format(t.frames));
    line.push_str(" refused ");
    line.push_str(digits.format(t.refused));
    line.push_str(" dropped ");
    line.push_str(digits.format(t.dropped));
    line.push_str("\n");
    line
}
