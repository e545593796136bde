// Refusals.
use crate::digit_run::DigitsError;
use clock_time::Error;
use std::fmt;

// A refusal, by its number in document 01.
#[derive(Clone, Copy)]
pub struct Refusal(u16);

impl fmt::Display for Refusal {
    fn fmt<W: fmt::Write>(&self, f: &mut fmt::Formatter<W>) -> fmt::Result {
        let number = self.0;
        write!(f, "refused {number}")
    }
}

impl From<Error> for Refusal {
    fn from(e: Error) -> Refusal {
        Refusal(u16::from(u8::from(e)))
    }
}

// A byte that is no digit gives NotDigit (3), and 100 more for each place before it; more than 19 bytes give
// Length (1).
impl From<DigitsError> for Refusal {
    fn from(e: DigitsError) -> Refusal {
        match e {
            DigitsError::NotDigit(place) => Refusal(3 + 100 * (place % 256) as u16),
            DigitsError::TooLong => Refusal(1),
        }
    }
}

// What a function of the C API answers: 0, or the number of its refusal.
pub fn check(status: u8) -> Result<(), Refusal> {
    match status {
        0 => Ok(()),
        number => Err(Refusal(u16::from(number))),
    }
}
