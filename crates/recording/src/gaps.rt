// The gaps of a recording.
ghost use Rattle.std.specs.Prelude.{◌≡◌, ◌≢◌, ◌+◌, ◌<◌, ◌≤◌, ℕ, length, drop, slice_index, MatchOption};
ghost use Rattle.recording.specs.Gaps.{gap_before, first_gap, gap_after, gap_of};

use dcf77::marks;
use dcf77::marks::GAP;

// Goes back from a place past marks that are short or long, eight at a time. A `while`: a chain of chunks gives how many
// eights it has passed, and not the place, so that it is no plainer.
fn pass_back(marks: &[u8], place: usize) -> usize
    ensures { (result ≤ place) × (gap_before marks.now result ≡ gap_before marks.now place) }
{
    let mut i = place;
    while 8 <= i {
        if !marks::are_eight_sure(marks, i - 8) {
            return i;
        }
        i -= 8;
    }
    i
}

// Goes on from a place past marks that are short or long, eight at a time; a `while` for the same reason.
fn pass_on(marks: &[u8], place: usize) -> usize
    ensures within { place ≤ length marks.now → result ≤ length marks.now }
    ensures same { first_gap (drop result marks.now) result ≡ first_gap (drop place marks.now) place }
{
    let mut i = place;
    while marks::are_eight_sure(marks, i) {
        i += 8;
    }
    i
}

// The last gap of some marks.
fn last_gap(marks: &[u8]) -> Option<usize>
    ensures { MatchOption result
        ((k : ℕ) → k < length marks.now → slice_index marks.now k ≢ 2)
        (λ i. (i < length marks.now) × (slice_index marks.now i ≡ 2)
        × ((k : ℕ) → i < k → k < length marks.now → slice_index marks.now k ≢ 2)) }
{
    marks.iter().rposition(|mark| *mark == GAP)
}

// The first gap of some marks.
fn first_gap(marks: &[u8]) -> Option<usize>
    ensures { MatchOption result
        ((k : ℕ) → k < length marks.now → slice_index marks.now k ≢ 2)
        (λ i. (i < length marks.now) × (slice_index marks.now i ≡ 2)
        × ((k : ℕ) → k < i → slice_index marks.now k ≢ 2)) }
{
    marks.iter().position(|mark| *mark == GAP)
}

// The nearest gap before a place.
// A place of the whole recording, as the definition has it; `Place` is made only after this.
pub(crate) fn gap_before(marks: &[u8], place: usize) -> Option<usize>
    requires { place ≤ length marks.now }
    ensures { gap_of result ≡ gap_before marks.now place }
{
    let end = pass_back(marks, place);
    last_gap(&marks[..end])
}

// The first gap after a place.
pub(crate) fn gap_after(marks: &[u8], place: usize) -> Option<usize>
    requires { place < length marks.now }
    ensures { gap_of result ≡ gap_after marks.now place }
{
    let start = pass_on(marks, place + 1);
    let found = first_gap(&marks[start..])?;
    Some(start + found)
}
