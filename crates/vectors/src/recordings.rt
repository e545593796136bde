// The commands on recordings. The numbers start with the length of the recording and that of its sheet; the text has a
// digit for each mark and, if it is empty, the marks are those of the module `day`. `at` has a place as its second
// number, and gives the number there; `fill` makes the sheet; `correct` puts a mark at a place with a sheet that is
// right, `mend` with one that had a number put at a place of it, and `unfit` with one that holds 7 everywhere.
// `outcome` has an outcome as its only number, and gives its Unix time.
use crate::refusal::{Refusal, check};
use crate::text::first;
use crate::{day, output};
use c_recordings::{
    radio_clock_correct_mark, radio_clock_fill_outcomes, radio_clock_outcome_at,
    radio_clock_outcome_unix_time,
};
use clock_time::Error;

// So many marks and outcomes there are.
pub const LENGTH: usize = 100001;

const UNSURE: u8 = 3;

// What an outcome is before the sheet is made.
const UNFIT: u32 = 7;

// How many marks and outcomes are lent.
#[derive(Clone, Copy)]
pub struct Lent {
    pub marks: usize,
    pub outcomes: usize,
}

// A mark to put at a place.
#[derive(Clone, Copy)]
pub struct Change {
    pub lent: Lent,
    pub place: usize,
    pub mark: u8,
}

// The sheet that a correction begins with: the right one, one with a number put at a place of it, or 7 everywhere.
#[derive(Clone, Copy)]
pub enum Sheet {
    Right,
    Mended(usize, u32),
    Unfit,
}

// Marks and their sheet, of which a command lends the first. All commands have the same one, so that none pays for the
// memory, and each puts into it first what it looks at.
// The sheet stands at the front: behind the marks it is not aligned, and is filled slower.
#[derive(Drop)]
pub struct Recording {
    pub outcomes: [u32; LENGTH],
    pub marks: [u8; LENGTH],
}

// A sum that depends on the order too.
fn sum<T: Copy + Into<u32>>(s: &[T]) -> u32 {
    s.iter().fold(0, |sum: u32, x| {
        let x: u32 = (*x).into();
        sum.wrapping_mul(16777619).wrapping_add(x)
    })
}

impl Recording {
    // Puts the marks of a text or, if it is empty, of the day, in place of unsure marks.
    fn load(&mut self, s: &[u8]) {
        for mark in self.marks.iter_mut() {
            *mark = UNSURE;
        }
        if s.is_empty() {
            day::make(&mut self.marks);
        } else if let Some(front) = self.marks.get_mut(..s.len()) {
            front.copy_from_slice(s);
        }
    }

    // Puts 7 everywhere in the sheet, as far as it is lent: no more of it is looked at.
    fn unmake(&mut self, lent: Lent) {
        for outcome in self.outcomes.iter_mut().take(lent.outcomes) {
            *outcome = UNFIT;
        }
    }

    // Makes the sheet. Refuses with LentMemory (20) if there are fewer outcomes than are lent; then it stays as it was.
    fn fill(&mut self, lent: Lent) -> Result<(), Refusal> {
        match self.outcomes.get_mut(..lent.outcomes) {
            Some(outcomes) => check(radio_clock_fill_outcomes(
                first(&self.marks, lent.marks),
                outcomes,
            )),
            None => Err(Refusal::from(Error::LentMemory)),
        }
    }

    fn mend(&mut self, at: usize, number: u32) {
        if let Some(outcome) = self.outcomes.get_mut(at) {
            *outcome = number;
        }
    }

    // Puts a mark, and answers how many outcomes change: 0 if there are fewer marks or outcomes than are lent.
    fn correct(&mut self, change: Change) -> Result<usize, Refusal> {
        let Some(marks) = self.marks.get_mut(..change.lent.marks) else {
            return Ok(0);
        };
        let Some(outcomes) = self.outcomes.get_mut(..change.lent.outcomes) else {
            return Ok(0);
        };
        let mut changed = 0;
        check(radio_clock_correct_mark(marks, outcomes, change.place, change.mark, &mut changed))?;
        Ok(changed)
    }
}

// The Unix time that an outcome announces.
pub fn unix_time(outcome: u32) -> Result<i64, Refusal> {
    let mut time = 0;
    check(radio_clock_outcome_unix_time(outcome, &mut time))?;
    Ok(time)
}

// The number that the rule gives a place. It needs no sheet.
pub fn outcome_at(
    recording: &mut Recording,
    s: &[u8],
    length: usize,
    place: usize,
) -> Result<u32, Refusal> {
    recording.load(s);
    let mut number = 0;
    check(radio_clock_outcome_at(first(&recording.marks, length), place, &mut number))?;
    Ok(number)
}

// Puts how many outcomes a sheet has, and their sum.
pub fn put_sheet(rt: &impl Print, recording: &mut Recording, s: &[u8], lent: Lent) {
    recording.load(s);
    recording.unmake(lent);
    output::put_result(rt, recording.fill(lent).map(|()| lent.outcomes));
    output::put(rt, sum(first(&recording.outcomes, lent.outcomes)));
}

// Puts what a correction answers, then the sums of the marks, of the outcomes, and of these once they are made anew.
pub fn put_corrected(
    rt: &impl Print,
    recording: &mut Recording,
    s: &[u8],
    change: Change,
    sheet: Sheet,
) {
    let lent = change.lent;
    recording.load(s);
    recording.unmake(lent);
    match sheet {
        Sheet::Right => {
            let _ = recording.fill(lent);
        }
        Sheet::Mended(at, number) => {
            let _ = recording.fill(lent);
            recording.mend(at, number);
        }
        Sheet::Unfit => {}
    }
    output::put_result(rt, recording.correct(change));
    output::put(rt, sum(first(&recording.marks, lent.marks)));
    output::put(rt, sum(first(&recording.outcomes, lent.outcomes)));
    let _ = recording.fill(lent);
    output::put(rt, sum(first(&recording.outcomes, lent.outcomes)));
}
