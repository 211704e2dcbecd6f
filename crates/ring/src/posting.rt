ghost use Rattle.std.specs.Prelude.{◌≡◌, ◌+◌, OnErr, OnOk};
ghost use Rattle.rows.specs.Letters.{Sends};
ghost use Rattle.ring.specs.World.{with_used};

use crate::ring::Ring;
use rows::letter::Letter;
use rows::refusal::Refusal;
use rows::sending::post;
use rows::size::RingSize;

impl Ring {
    // Sends a letter to all nodes, in the places of the tray behind the used ones, which are then used too.
    // Refused: 12 fewer free places than nodes.
    pub(crate) fn send(
        &mut self,
        tray: &mut [Letter],
        size: RingSize,
        letter: Letter,
    ) -> Result<(), Refusal>
        ensures letters { Sends tray.old self.old.used size.n letter result tray.new }
        ensures sent { OnOk result (self.new ≡ with_used (self.old.used + size.n) self.old) }
        ensures kept { OnErr result (self.new ≡ self.old) }
    {
        post(tray, self.used, size.n, letter)?;
        self.used += usize::from(size.n);
        Ok(())
    }
}
