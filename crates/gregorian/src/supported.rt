// The dates of the years 1970 to 2069, of which days can be counted.
ghost use Rattle.std.specs.Prelude.{◌≡◌, true, is_some, IfSome};
ghost use Rattle.gregorian.specs.Date.{supported_date, first_year, last_year};

use crate::{FIRST_YEAR, LAST_YEAR};
use clock_time::Date;

// A date that exists, of the years 1970 to 2069.
#[derive(Clone, Copy, Debug, PartialEq, Eq, Hash, Drop)]
pub struct SupportedDate {
    pub date: Date,
    pub ghost is_supported: { supported_date first_year last_year date.year date.month date.day ≡ true },
}

impl SupportedDate {
    // The date as one of the years 1970 to 2069, if it is one.
    pub fn new(date: Date) -> Option<Self>
        ensures known { is_some result ≡ supported_date first_year last_year date.year date.month date.day }
        ensures same { IfSome result (λ s. s.date ≡ date) }
    {
        if crate::is_supported_date(FIRST_YEAR, LAST_YEAR, date) {
            // Field by field: a copy of the whole is packed into one register and taken apart again.
            let Date { year, month, day } = date;
            Some(SupportedDate {
                date: Date { year, month, day },
            })
        } else {
            None
        }
    }
}
