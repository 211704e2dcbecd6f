ghost use Rattle.rows.specs.Size.{Sized};

use crate::refusal::Refusal;
use crate::size::RingSize;

const MOST_NODES: u16 = 7;

impl RingSize {
    // The size with n nodes and quorum q. Refused: 1 n is 0 or above 7; 2 q is above n; 3 3 q is below 2 n + 1.
    pub fn new(n: u16, q: u16) -> Result<RingSize, Refusal>
        ensures { Sized n q result }
    {
        if !(1..=MOST_NODES).contains(&n) {
            return Err(Refusal::NodesOutOfRange);
        }
        if q > n {
            return Err(Refusal::QuorumTooLarge);
        }
        if 3 * q < 2 * n + 1 {
            return Err(Refusal::QuorumTooSmall);
        }
        Ok(RingSize {
            n: n as u8,
            q: q as u8,
        })
    }
}
