use rows::row::Row;
use rows::size::RingSize;

// What a node keeps, whichever state it is in: its number in the ring, the size of the ring, and its row, which tells
// its phase too.
#[derive(Clone, Copy)]
pub(crate) struct Member {
    pub(crate) number: u8,
    pub(crate) size: RingSize,
    pub(crate) row: Row,
}
