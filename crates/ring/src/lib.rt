// The ring: up to seven nodes that broadcast commands to one another and deliver them, so that commands which
// conflict are delivered in one order everywhere. It is a library of calls over tables that the caller lends: a tray
// of letters, a book of commands and the sheets of the nodes. A chooser settles what the nodes cannot settle alone.
#![tactic(auto)]

pub mod broadcasting;
pub mod catching_up;
pub mod closing;
pub mod failing;
pub mod gathering;
mod nodes;
mod posting;
pub mod questions;
pub mod receiving;
pub mod ring;
pub mod showing;
pub mod starting;
pub mod step;
pub mod stepping;
mod tables;
