// A recording, its outcomes, and the correction of a mark.
ghost use Rattle.std.specs.Prelude.{ℕ, ◌≡◌, [], ◌∷◌};
ghost use Rattle.clock_time.specs.Reading.{answer_of};
ghost use Rattle.clock_time.specs.Errors.{accepted};
ghost use Rattle.recording.specs.Demand.{Corrected};
ghost use Rattle.recording.specs.Recording.{filling, recorded, correction};
ghost use Rattle.demands.specs.Refusals.{RefusesInOrder, RefusesAndKeeps};
ghost use Rattle.demands.specs.Lines.{outcome_lines, outcome_time_lines, fill_lines, correction_lines};
ghost use Rattle.demands.specs.Instant.{OutcomeInstant};
ghost use Rattle.recording.specs.SheetNumber.{RightFor};
ghost use Rattle.demands.specs.OutcomeAt.{OutcomeAt};
ghost use Rattle.demands.specs.Exactly.{ReadsExactly};

use clock_time::Error;

fn outcome_at(marks: &[u8], place: usize) -> Result<u32, Error>
    ensures demand_1 { RefusesInOrder (outcome_lines marks.now place) (20 ∷ 21 ∷ []) (answer_of result) }
    ensures rule { ReadsExactly (OutcomeAt marks.now place) (answer_of result) }
{
    recording::outcome_at(marks, place)
}

fn outcome_unix_time(number: u32) -> Result<i64, Error>
    ensures demand_1 { RefusesInOrder (outcome_time_lines number) (23 ∷ []) (answer_of result) }
    ensures answer { ReadsExactly (OutcomeInstant number) (answer_of result) }
{
    dcf77_outcome::outcome_unix_time(number)
}

fn fill_outcomes(marks: &[u8], outcomes: &mut [u32]) -> Result<(), Error>
    ensures demand_1 { RefusesAndKeeps (fill_lines marks.now outcomes.old) (20 ∷ []) outcomes.old
        (filling result outcomes.new) }
    ensures rule { answer_of result ≡ accepted tt → RightFor marks.now outcomes.new }
{
    recording::fill_outcomes(marks, outcomes)
}

fn correct_mark(
    marks: &mut [u8],
    outcomes: &mut [u32],
    place: usize,
    mark: u8,
) -> Result<usize, Error>
    ensures demand_1 { RefusesAndKeeps (correction_lines marks.old outcomes.old place mark) (20 ∷ 21 ∷ 22 ∷ [])
        (recorded marks.old outcomes.old)
        (correction result marks.new outcomes.new) }
    ensures demand_3 { (count : ℕ) → answer_of result ≡ accepted count
        → Corrected marks.old outcomes.old place mark marks.new outcomes.new
        count }
{
    recording::correct_mark(marks, outcomes, place, mark)
}
