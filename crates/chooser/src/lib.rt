// Choosers: what settles a stage of the ring when nodes propose different things.
#![tactic(auto)]

pub mod chooser;
pub mod first_come;
pub mod laws;
pub mod log;
pub mod lowest_of;
pub mod proposal;
pub mod refusal;
pub mod rule;
pub mod ruled;
