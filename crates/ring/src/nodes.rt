ghost use Rattle.ring.specs.World.{Named, Alive};

use crate::ring::Ring;
use rows::refusal::Refusal;
use rows::size::RingSize;

impl Ring {
    // The size of the ring, if it has this node. Refused: 7 the ring was never started; 8 there is no such node.
    pub(crate) fn with_node(&self, node: u8) -> Result<RingSize, Refusal>
        ensures { Named self.now node result }
    {
        let size = self.size.ok_or(Refusal::NotStarted)?;
        if node >= size.n {
            return Err(Refusal::NoSuchNode);
        }
        Ok(size)
    }

    // The same for a node that lives. Refused: 7; 8; 9 that node has crashed.
    pub(crate) fn with_live_node(&self, node: u8) -> Result<RingSize, Refusal>
        ensures { Alive self.now node result }
    {
        let size = self.with_node(node)?;
        if self.nodes[usize::from(node)].crashed {
            return Err(Refusal::NodeCrashed);
        }
        Ok(size)
    }
}
