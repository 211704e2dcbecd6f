// Replaying a schedule: its entries are given to a ring, one after the other, and what came of them is counted.
#![tactic(auto)]

pub mod run;
pub mod tally;
pub mod turn;
pub mod whole_day;
