// Dates, times of day, and Unix time.
#![tactic(auto)]

pub mod date;
pub mod representable;
pub mod time_of_day;
pub mod unix_time;
