use record::command::Command;

// One call of a schedule. The body of a broadcast is the part of the input that its command was read from.
#[derive(Clone, Copy, Debug, PartialEq)]
pub enum Entry<'a> {
    Broadcast {
        node: u8,
        command: Command,
        body: &'a [u8],
    },
    Receive {
        place: u16,
    },
    Step {
        node: u8,
    },
    Crash {
        node: u8,
    },
    Lose {
        place: u16,
    },
}
