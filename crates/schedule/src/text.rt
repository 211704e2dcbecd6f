ghost use Rattle.std.specs.Prelude.{Some};
ghost use Rattle.schedule.specs.Entries.{act_of};
ghost use Rattle.schedule.specs.Texts.{act_text, fault_text, layer_name};

use crate::entry::Entry;
use crate::fault::EntryFault;
use crate::report::Layer;
use std::error::Error;
use std::fmt;

// What an entry says; a body is the bytes of its command, and is not told.
impl fmt::Display for Entry<'_> {
    ghost output = { λ e. Some (act_text (act_of e)) };

    fn fmt<W: fmt::Write>(&self, f: &mut fmt::Formatter<W>) -> fmt::Result {
        match self {
            Entry::Broadcast { node, command, .. } => {
                let verb = command.verb;
                let subject = command.subject;
                let day = command.day;
                let amount = command.amount;
                write!(
                    f,
                    "broadcast by node {node}: verb {verb} subject {subject} day {day} amount {amount}"
                )
            }
            Entry::Receive { place } => write!(f, "receive place {place}"),
            Entry::Step { node } => write!(f, "step node {node}"),
            Entry::Crash { node } => write!(f, "crash node {node}"),
            Entry::Lose { place } => write!(f, "lose place {place}"),
        }
    }
}

// The name of a layer.
impl fmt::Display for Layer {
    ghost output = { λ l. Some (layer_name l) };

    fn fmt<W: fmt::Write>(&self, f: &mut fmt::Formatter<W>) -> fmt::Result {
        match self {
            Layer::Number => write!(f, "number"),
            Layer::Command => write!(f, "command"),
            Layer::Entry => write!(f, "entry"),
        }
    }
}

// The number of a fault, and its place.
impl fmt::Display for EntryFault {
    ghost output = { λ e. Some (fault_text e) };

    fn fmt<W: fmt::Write>(&self, f: &mut fmt::Formatter<W>) -> fmt::Result {
        let number = self.number();
        let place = self.place();
        write!(f, "fault {number} at {place}")
    }
}

impl Error for EntryFault {}
