// What a ring is made of: its size, its letters, the rows of its nodes, and what each event makes of a row.
#![tactic(auto)]

pub mod conflict;
pub mod letter;
pub(crate) mod mask;
pub mod proposing;
pub mod refusal;
pub mod row;
pub mod sending;
pub mod settling;
pub mod size;
pub mod sizing;
pub mod taking;
pub(crate) mod tally;
