// A writer of the entries of a schedule.
#![tactic(auto)]

mod group;
mod numbers;
pub mod refusal;
pub mod write;
