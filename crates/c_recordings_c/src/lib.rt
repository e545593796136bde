// What C calls of recordings of marks. Each exported function returns 0, or the number of its refusal, and leaves its
// results in memory that the caller lends. A refusal changes nothing lent. The C interface needs the statuses as
// numbers, and the results behind pointers. Each only calls the function of its name in c_recordings, and promises what
// that promises. They stand twice since a crate is a library or an archive.
#![tactic(auto)]

ghost use Rattle.clock_time.specs.Called.{called, called_answer, called_memory, called_both};
ghost use Rattle.dcf77_outcome.specs.Instant.{outcome_unix_time};
ghost use Rattle.recording.specs.Recording.{outcome_at, fill_outcomes, recorded, correct_mark};
ghost use Rattle.std.specs.Prelude.{◌≡◌};

// Leaves the number that the rule gives a place behind `number`. Refuses with LentMemory (20) if there are more than
// 100,000 marks, then with Place (21) if there is no such place.
#[unsafe(no_mangle)]
pub extern "C" fn radio_clock_outcome_at(marks: &[u8], place: usize, number: &mut u32) -> u8
    ensures { called result number.new ≡ called_answer number.old (outcome_at marks.now place) }
{
    c_recordings::radio_clock_outcome_at(marks, place, number)
}

// Leaves the Unix time that the outcome of an accepted minute announces behind `time`. Refuses with Unrepresentable
// (23) if no accepted minute has the outcome.
#[unsafe(no_mangle)]
pub extern "C" fn radio_clock_outcome_unix_time(outcome: u32, time: &mut i64) -> u8
    ensures { called result time.new ≡ called_answer time.old (outcome_unix_time outcome) }
{
    c_recordings::radio_clock_outcome_unix_time(outcome, time)
}

// Puts the number of every place into the outcomes. Refuses with LentMemory (20) if there are not as many outcomes
// as marks, or more than 100,000 marks.
#[unsafe(no_mangle)]
pub extern "C" fn radio_clock_fill_outcomes(marks: &[u8], outcomes: &mut [u32]) -> u8
    ensures { called result outcomes.new ≡ called_memory (fill_outcomes marks.now outcomes.old) }
{
    c_recordings::radio_clock_fill_outcomes(marks, outcomes)
}

// Puts a new mark at a place, brings the outcomes up to date, and leaves the count of those that differ behind
// `changed`. Refuses with LentMemory (20) if there are not as many outcomes as marks, or more than 100,000 marks, with
// Place (21) if there is no such place, then with NewMark (22) if the mark is above 3.
#[unsafe(no_mangle)]
pub extern "C" fn radio_clock_correct_mark(
    marks: &mut [u8],
    outcomes: &mut [u32],
    place: usize,
    mark: u8,
    changed: &mut usize,
) -> u8
    ensures { called result (recorded marks.new outcomes.new, changed.new)
        ≡ called_both changed.old (correct_mark marks.old outcomes.old place mark) }
{
    c_recordings::radio_clock_correct_mark(marks, outcomes, place, mark, changed)
}
