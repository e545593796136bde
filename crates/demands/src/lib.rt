// The three demands, tied to the code: for each entry a function that only calls it, with the demands as its contract.
// So a contract below that says less than a demand fails here. Nothing calls these functions.
#![tactic(auto)]

mod calls_of_readings;
mod calls_of_recordings;
mod instants;
mod leaves;
mod minutes;
mod recordings;
mod streams;
mod strings;
mod trimble;
