ghost use Rattle.std.specs.Prelude.{◌≡◌};
ghost use Rattle.ring.specs.Start.{idle_ring, new_ring};

use rows::row::Row;
use rows::size::RingSize;

// What a ring keeps of one of its nodes: its row, and whether it has crashed.
#[derive(Clone, Copy)]
pub(crate) struct Node {
    pub(crate) row: Row,
    // Stays a bool: no value stands beside it, and it is asked of one node at a time.
    pub(crate) crashed: bool,
}

// A ring: what its calls keep from one to the next. All else stands in the tables that the caller lends to each call: the
// tray of all letters ever sent, the book of the commands of all messages, and the sheets of the nodes.
#[derive(Drop)]
pub struct Ring {
    // none before the first start
    pub(crate) size: Option<RingSize>,
    // how many messages were broadcast; they are numbered in order of broadcast
    pub(crate) messages: u8,
    // who broadcast each of them
    // Stays apart from the book, and `used` from the tray: both are lent, and may hold anything.
    pub(crate) broadcasters: [u8; 64],
    // how many places of the tray are used
    pub(crate) used: usize,
    pub(crate) nodes: [Node; 7],
}

impl Ring {
    // A ring that was never started.
    pub fn new() -> Ring
        ensures { result ≡ idle_ring }
    {
        Ring {
            size: None,
            messages: 0,
            broadcasters: [0; 64],
            used: 0,
            nodes: [Node {
                row: Row::new(),
                crashed: false,
            }; 7],
        }
    }

    // A ring of this size at its start.
    pub(crate) fn of_size(size: RingSize) -> Ring
        ensures { result ≡ new_ring size }
    {
        let idle = Ring::new();
        Ring {
            size: Some(size),
            ..idle
        }
    }
}
