// Records: what the servers hold, and what a command makes of it.
#![tactic(auto)]

pub mod closing_book;
pub mod command;
pub mod kitty;
pub mod laws;
pub mod pair;
pub mod record;
pub mod record_kind;
pub mod rounds;
