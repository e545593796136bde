// A recording of DCF77 marks and its outcomes: the number at a place, at every place, and the correction of a mark.
#![tactic(auto)]

ghost use Rattle.std.specs.Prelude.{◌≡◌, ◌<◌, [], ◌∷◌, leb, length, set};
ghost use Rattle.clock_time.specs.Reading.{answer_of};
ghost use Rattle.clock_time.specs.Errors.{checked, given};
ghost use Rattle.recording.specs.Recording.{outcome_at, unfit, filling, fill_outcomes};
ghost use Rattle.recording.specs.Recording.{correction, correct_mark};

use clock_time::Error;
use update::Place;

mod gaps;
mod numbers;
mod update;

// The most marks that a recording may have, and the greatest number that a new mark may have.
const LONGEST: usize = 100_000;

const LAST_MARK: u8 = 3;

// Refuses with Place (21) if so many marks have no such place.
fn check_place(marks: usize, place: usize) -> Result<(), Error>
    ensures { answer_of result ≡ checked (given 21 (leb marks place) ∷ []) tt }
{
    if marks <= place {
        return Err(Error::Place);
    }
    Ok(())
}

// The number that the rule gives a place. Refuses with LentMemory (20) if there are more than 100,000 marks, then with
// Place (21) if there is no such place.
#[tactic(auto, unfolding(crate::specs::Recording::outcome_at))]
pub fn outcome_at(marks: &[u8], place: usize) -> Result<u32, Error>
    ensures { answer_of result ≡ outcome_at marks.now place }
{
    if LONGEST < marks.len() {
        return Err(Error::LentMemory);
    }
    check_place(marks.len(), place)?;
    Ok(numbers::number_at(marks, place))
}

// Refuses with LentMemory (20) if so many outcomes cannot be those of so many marks.
fn check_fit(marks: usize, outcomes: usize) -> Result<(), Error>
    ensures { answer_of result ≡ checked (given 20 (unfit marks outcomes) ∷ []) tt }
{
    if (marks != outcomes) | (LONGEST < marks) {
        return Err(Error::LentMemory);
    }
    Ok(())
}

// Puts the number of every place into the outcomes. Refuses with LentMemory (20) if there are not as many outcomes
// as marks, or more than 100,000 marks.
// Marks and outcomes are two slices, since C lends them apart.
pub fn fill_outcomes(marks: &[u8], outcomes: &mut [u32]) -> Result<(), Error>
    ensures { filling result outcomes.new ≡ fill_outcomes marks.now outcomes.old }
{
    check_fit(marks.len(), outcomes.len())?;
    numbers::fill(marks, outcomes);
    Ok(())
}

// Puts a mark at a place.
fn put_mark(marks: &mut [u8], place: usize, mark: u8)
    requires { place < length marks.old }
    ensures { marks.new ≡ set marks.old place mark }
{
    marks[place] = mark;
}

// Puts a new mark at a place, brings the outcomes up to date, and counts those that differ. Refuses with LentMemory
// (20) if there are not as many outcomes as marks, or more than 100,000 marks, with Place (21) if there is no such
// place, then with NewMark (22) if the mark is above 3.
pub fn correct_mark(
    marks: &mut [u8],
    outcomes: &mut [u32],
    place: usize,
    mark: u8,
) -> Result<usize, Error>
    ensures { correction result marks.new outcomes.new
        ≡ correct_mark marks.old outcomes.old place mark }
{
    check_fit(marks.len(), outcomes.len())?;
    check_place(marks.len(), place)?;
    if LAST_MARK < mark {
        return Err(Error::NewMark);
    }
    put_mark(marks, place, mark);
    Ok(Place::new(marks, place).update(outcomes))
}
