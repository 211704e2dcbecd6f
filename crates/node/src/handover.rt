use crate::closing_node::Closing;
use rows::refusal::Refusal;

// What a closing gives: the node, now closing, and two messages that conflict.
pub struct Closed {
    pub node: Closing,
    pub pair: (u8, u8),
}

// A call that uses up the node was turned down: the node as it was, and why.
pub struct Refused<N> {
    pub node: N,
    pub refusal: Refusal,
}

// What a node leaves that was ended: the stage that it was in, and how many places of its sheet are used. So the host can
// still read the sheet; a node that goes on from there cannot be made of it.
#[derive(Clone, Copy, Debug, PartialEq, Eq)]
pub struct Retired {
    pub stage: u32,
    pub sheet_length: usize,
}
