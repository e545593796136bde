// The C API of readings: strings, minutes, the feed and Unix time. Each exported function returns 0, or the number of
// its refusal, and leaves its results in memory that the caller lends. A refusal changes nothing lent. The C interface
// needs the statuses and kinds as numbers, and the results behind pointers; all below it answers a Result.
#![tactic(auto)]

pub mod feed;
pub mod instant;
pub mod minutes;
pub mod strings;
pub mod trimble;
