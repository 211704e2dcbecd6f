ghost use Rattle.std.specs.Prelude.{◌≡◌};
ghost use Rattle.ring.specs.Show.{stage_answer, live_answer};

use crate::ring::Ring;
use rows::refusal::Refusal;

impl Ring {
    // The stage that a node is in. Refused: 7 never started; 8 no such node.
    pub fn stage(&self, node: u8) -> Result<u32, Refusal>
        ensures { result ≡ stage_answer self.now node }
    {
        self.with_node(node)?;
        Ok(self.nodes[usize::from(node)].row.stage)
    }

    // Whether a node lives. Refused: 7 never started; 8 no such node.
    pub fn is_live(&self, node: u8) -> Result<bool, Refusal>
        ensures { result ≡ live_answer self.now node }
    {
        self.with_node(node)?;
        Ok(!self.nodes[usize::from(node)].crashed)
    }
}
