// The text of a day: what the program `day` prints for its input.
#![tactic(auto)]

pub mod day;
pub mod input;
pub mod lines;
pub mod report;
pub mod sheets;
