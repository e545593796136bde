// The instant, days and weekdays.
ghost use Rattle.std.specs.Prelude.{◌≤◌, [], ◌∷◌};
ghost use Rattle.clock_time.specs.Reading.{answer_of};
ghost use Rattle.calendar.specs.Days.{DayAfter, OnWeekday};
ghost use Rattle.demands.specs.Refusals.{RefusesInOrder};
ghost use Rattle.demands.specs.Lines.{instant_lines, date_lines};
ghost use Rattle.demands.specs.Instant.{InstantOf};
ghost use Rattle.demands.specs.Exactly.{ReadsExactly};

use clock_time::{ClockTime, Date, Error};

fn unix_time(t: ClockTime) -> Result<i64, Error>
    ensures demand_1 { RefusesInOrder (instant_lines t) (23 ∷ []) (answer_of result) }
    ensures answer { ReadsExactly (InstantOf t) (answer_of result) }
{
    calendar::unix_time::unix_time(t)
}

fn day_number(date: Date) -> Result<u32, Error>
    ensures demand_1 { RefusesInOrder (date_lines date.year date.month date.day) (5 ∷ []) (answer_of result) }
    ensures answer { ReadsExactly (λ n. DayAfter n date.year date.month date.day × (date.year ≤ 2069))
        (answer_of result) }
{
    calendar::date::day_number(date)
}

fn weekday_of(date: Date) -> Result<u32, Error>
    ensures demand_1 { RefusesInOrder (date_lines date.year date.month date.day) (5 ∷ []) (answer_of result) }
    ensures answer { ReadsExactly (λ w. OnWeekday date.year date.month date.day w × (date.year ≤ 2069))
        (answer_of result) }
{
    calendar::date::weekday_of(date)
}
