// A schedule as text: a line for each entry, and one for the fault that stops it.
#![tactic(auto)]

pub mod entry_text;
pub mod fault_text;
mod layers;
pub mod listing;
