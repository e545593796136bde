// The number that the rule gives a place of a recording, and every place.
ghost use Rattle.std.specs.Prelude.{◌≡◌, ◌<◌, ◌≤◌, length};
ghost use Rattle.dcf77_outcome.specs.Number.{run_number};
ghost use Rattle.recording.specs.Gaps.{gap_before, gap_of};
ghost use Rattle.recording.specs.Outcomes.{numbers};
ghost use Rattle.recording.specs.Rule.{run_between, gap_number};
ghost use Rattle.recording.specs.Recording.{rule};

use crate::gaps;
use clock_time::Error;
use dcf77::marks::GAP;

// The number of the run between two places.
// One u32, as `run_number` answers: C lends outcomes as such numbers. Places are those of the whole recording, as the
// definitions name them.
fn number_between(marks: &[u8], earlier: usize, place: usize) -> u32
    requires { (earlier < place) × (place ≤ length marks.now) }
    ensures { result ≡ run_number (run_between marks.now earlier place) }
{
    let first = earlier + 1;
    dcf77_outcome::run_number(&marks[first..place])
}

// The number at a gap, from the nearest gap before it.
pub(crate) fn number_at_gap(marks: &[u8], place: usize, last: Option<usize>) -> u32
    requires { (place ≤ length marks.now) × (gap_of last ≡ gap_before marks.now place) }
    ensures { result ≡ gap_number run_number marks.now place (gap_of last) }
{
    match last {
        Some(earlier) => number_between(marks, earlier, place),
        None => u32::from(u8::from(Error::NoEarlierGap)),
    }
}

// The number at a place. The gap before it is looked for only if the place is a gap.
#[tactic(auto, using(crate::proofs::RuleLaws::rule_none, crate::proofs::RuleLaws::rule_gap))]
pub(crate) fn number_at(marks: &[u8], place: usize) -> u32
    requires { place < length marks.now }
    ensures { result ≡ rule marks.now place }
{
    if marks[place] != GAP {
        return 0;
    }
    number_at_gap(marks, place, gaps::gap_before(marks, place))
}

// Puts every place's number into outcomes, in one pass: the last gap seen is kept, and not looked for again.
pub(crate) fn fill(marks: &[u8], outcomes: &mut [u32])
    requires { length marks.now ≡ length outcomes.old }
    ensures { outcomes.new ≡ numbers (rule marks.now) (length marks.now) }
{
    let mut last = None;
    for (i, outcome) in outcomes.iter_mut().enumerate() {
        *outcome = 0;
        if marks[i] == GAP {
            *outcome = number_at_gap(marks, i, last);
            last = Some(i);
        }
    }
}
