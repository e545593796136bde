// From C: a recording, its outcomes, and the correction of a mark. Statuses and kinds are numbers, and results behind
// pointers, since this is what C calls.
ghost use Rattle.std.specs.Prelude.{ℕ, ◌≡◌, [], ◌∷◌};
ghost use Rattle.clock_time.specs.Called.{called};
ghost use Rattle.recording.specs.Demand.{Corrected};
ghost use Rattle.recording.specs.Recording.{Recorded, recorded};
ghost use Rattle.demands.specs.Refusals.{CallRefusesAndKeeps};
ghost use Rattle.demands.specs.Lines.{outcome_lines, outcome_time_lines, fill_lines, correction_lines};
ghost use Rattle.demands.specs.Instant.{OutcomeInstant};
ghost use Rattle.recording.specs.SheetNumber.{RightFor};
ghost use Rattle.demands.specs.OutcomeAt.{OutcomeAt};
ghost use Rattle.demands.specs.Exactly.{CallAnswersExactly};

fn radio_clock_outcome_at(marks: &[u8], place: usize, number: &mut u32) -> u8
    ensures demand_1 { CallRefusesAndKeeps (outcome_lines marks.now place) (20 ∷ 21 ∷ []) number.old
        (called result number.new) }
    ensures rule { CallAnswersExactly (OutcomeAt marks.now place) (called result number.new) }
{
    c_recordings::radio_clock_outcome_at(marks, place, number)
}

fn radio_clock_outcome_unix_time(outcome: u32, time: &mut i64) -> u8
    ensures demand_1 { CallRefusesAndKeeps (outcome_time_lines outcome) (23 ∷ []) time.old (called result time.new) }
    ensures answer { CallAnswersExactly (OutcomeInstant outcome) (called result time.new) }
{
    c_recordings::radio_clock_outcome_unix_time(outcome, time)
}

fn radio_clock_fill_outcomes(marks: &[u8], outcomes: &mut [u32]) -> u8
    ensures demand_1 { CallRefusesAndKeeps (fill_lines marks.now outcomes.old) (20 ∷ []) outcomes.old
        (called result outcomes.new) }
    ensures rule { result ≡ 0 → RightFor marks.now outcomes.new }
{
    c_recordings::radio_clock_fill_outcomes(marks, outcomes)
}

fn radio_clock_correct_mark(
    marks: &mut [u8],
    outcomes: &mut [u32],
    place: usize,
    mark: u8,
    changed: &mut usize,
) -> u8
    ensures demand_1 { CallRefusesAndKeeps {M = Recorded × ℕ} (correction_lines marks.old outcomes.old place mark)
        (20 ∷ 21 ∷ 22 ∷ []) (recorded marks.old outcomes.old, changed.old)
        (called result (recorded marks.new outcomes.new, changed.new)) }
    ensures demand_3 { result ≡ 0
        → Corrected marks.old outcomes.old place mark marks.new outcomes.new
        changed.new }
{
    c_recordings::radio_clock_correct_mark(marks, outcomes, place, mark, changed)
}
