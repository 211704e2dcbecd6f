// Schedules as bytes: their format and its laws, and a reader of entries and headers.
#![tactic(auto)]

pub mod draft;
pub mod entries;
pub mod entry;
pub mod fault;
pub mod header;
pub mod kind;
pub mod laws;
mod numbers;
mod read_command;
mod read_entry;
mod read_header;
mod read_kind;
mod read_number;
pub mod reader;
pub mod report;
mod text;
