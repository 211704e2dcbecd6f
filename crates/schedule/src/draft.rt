use record::command::Command;

// An entry to be written. Nodes and places have room above their limits; the numbers of a command have none.
// Stays beside Entry: a node or a place above its limit is a draft that is refused, and a draft has no body of its own.
#[derive(Clone, Copy)]
pub enum Draft {
    Broadcast { node: usize, command: Command },
    Receive { place: usize },
    Step { node: usize },
    Crash { node: usize },
    Lose { place: usize },
}
