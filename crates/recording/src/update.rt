// Outcomes brought up to date after a mark has changed.
ghost use Rattle.std.specs.Prelude.{◌≡◌, ◌+◌, ◌<◌, length, get_or, set};
ghost use Rattle.recording.specs.Gaps.{gap_before, gap_of};
ghost use Rattle.recording.specs.Outcomes.{differ, differences};
ghost use Rattle.recording.specs.Recording.{rule, updated};

use crate::{gaps, numbers};
use dcf77::marks::GAP;

// A place, with the nearest gap before it.
#[derive(Clone, Copy)]
pub(crate) struct Place<'a> {
    marks: &'a [u8],
    place: usize,
    before: Option<usize>,
    ghost is_there: { place < length marks.now },
    ghost is_nearest: { gap_of before ≡ gap_before marks.now place },
}

impl<'a> Place<'a> {
    // A place, for which the gap before it is looked for.
    pub(crate) fn new(marks: &'a [u8], place: usize) -> Place<'a>
        requires { place < length marks.now }
        ensures marks { result.marks.now ≡ marks.now }
        ensures place { result.place ≡ place }
    {
        Place {
            marks,
            place,
            before: gaps::gap_before(marks, place),
        }
    }

    // The nearest gap up to the place: the place itself if it is one, else the nearest before it.
    #[tactic(auto, using(crate::proofs::GapLaws::before_gap, crate::proofs::GapLaws::before_more))]
    fn gap_up_to(&self) -> Option<usize>
        ensures { gap_of result ≡ gap_before self.now.marks.now (self.now.place + 1) }
    {
        if self.marks[self.place] == GAP {
            Some(self.place)
        } else {
            self.before
        }
    }

    // The number at the place.
    // As `numbers::number_at`, but the gap before is known.
    #[tactic(auto, using(crate::proofs::RuleLaws::rule_none, crate::proofs::RuleLaws::rule_gap))]
    fn number(&self) -> u32
        ensures { result ≡ rule self.now.marks.now self.now.place }
    {
        if self.marks[self.place] != GAP {
            return 0;
        }
        numbers::number_at_gap(self.marks, self.place, self.before)
    }

    // Puts the rule's number at the place of the outcomes, and says by 1 that it is another one than before.
    #[tactic(auto, using(crate::proofs::OutcomeLaws::differ_byte))]
    fn renew(&self, outcomes: &mut [u32]) -> usize
        requires { length self.now.marks.now ≡ length outcomes.old }
        ensures outcomes { outcomes.new
            ≡ set outcomes.old self.now.place (rule self.now.marks.now self.now.place) }
        ensures count { result
            ≡ differ (get_or outcomes.old self.now.place 0) (rule self.now.marks.now self.now.place) }
    {
        let new = self.number();
        let old = outcomes[self.place];
        outcomes[self.place] = new;
        usize::from(old != new)
    }

    // Brings outcomes up to date after a change of the mark at the place, and counts the numbers that differ. No number
    // after the next gap depends on that mark, and no gap lies between the two, so the gap before them is looked for
    // once.
    pub(crate) fn update(&self, outcomes: &mut [u32]) -> usize
        requires { length self.now.marks.now ≡ length outcomes.old }
        ensures outcomes { outcomes.new ≡ updated self.now.marks.now outcomes.old self.now.place }
        ensures count { result ≡ differences outcomes.old (updated self.now.marks.now outcomes.old self.now.place) }
    {
        let here = self.renew(outcomes);
        match gaps::gap_after(self.marks, self.place) {
            Some(gap) => {
                let next = Place {
                    marks: self.marks,
                    place: gap,
                    before: self.gap_up_to(),
                };
                here + next.renew(outcomes)
            }
            None => here,
        }
    }
}
