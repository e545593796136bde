// What C gets of a call: a status, which is 0 or the number of the refusal, and what is left in the memory lent.
ghost use Rattle.std.specs.Prelude.{◌≡◌};
ghost use Rattle.clock_time.specs.Called.{status_of, called, called_answer};
ghost use Rattle.clock_time.specs.Reading.{answer_of};

use crate::Error;

// The status of a call that leaves its result in lent memory.
pub fn status(done: Result<(), Error>) -> u8
    ensures { result ≡ status_of (answer_of done) }
{
    match done {
        Ok(()) => 0,
        Err(e) => u8::from(e),
    }
}

// Puts what was answered behind a pointer, which a refusal leaves alone, and gives the status of the call.
pub fn put<T: Copy>(answer: Result<T, Error>, place: &mut T) -> u8
    ensures { called result place.new ≡ called_answer place.old (answer_of answer) }
{
    match answer {
        Ok(value) => {
            *place = value;
            0
        }
        Err(e) => u8::from(e),
    }
}
