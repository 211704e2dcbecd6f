ghost use Rattle.std.specs.Prelude.{◌≡◌, ℕ, ◌<◌, List, Some};
ghost use Rattle.record.specs.declared.command.Command.{Command};
ghost use Rattle.rows.specs.declared.letter.Letter.{Letter};
ghost use Rattle.ring.specs.World.{world};
ghost use Rattle.ring.specs.Close.{Proposing, Settling};

use crate::ring::Ring;
use crate::step::Step;
use chooser::chooser::Chooser;
use rows::refusal::Refusal;
use rows::size::RingSize;

impl Ring {
    // Stays with the fact on the size, as the step of a gathering node does.

    // The step of a closing node that has not proposed: it proposes. It is lent no table, and its contract holds of any.
    // Refused: 18 it keeps fewer than q checks; 20 the chooser refuses.
    pub(crate) fn propose<C: Chooser>(
        &mut self,
        chooser: &mut C,
        size: RingSize,
        node: u8,
    ) -> Result<Step, Refusal>
        requires started { self.old.size ≡ Some size }
        requires inside { node < 7 }
        ensures { (tray : List Letter) (book : List Command) (sheets : List ℕ) → Proposing
            (world self.old tray book sheets)
            (C.Chooser.meaning chooser.old) node result
            (world self.new tray book sheets)
            (C.Chooser.meaning chooser.new) }
    {
        self.nodes[usize::from(node)]
            .row
            .propose(size, chooser, node)?;
        Ok(Step::Proposed)
    }

    // The step of a closing node that has proposed: it settles its stage by the decision. It is lent the sheets alone, and
    // its contract holds of any tray and book. Refused: 20 the chooser refuses; 19 the stage is undecided.
    pub(crate) fn settle<C: Chooser>(
        &mut self,
        sheets: &mut [u8],
        chooser: &mut C,
        node: u8,
    ) -> Result<Step, Refusal>
        requires inside { node < 7 }
        ensures { (tray : List Letter) (book : List Command) → Settling
            (world self.old tray book sheets.old)
            (C.Chooser.meaning chooser.old) node result
            (world self.new tray book sheets.new)
            (C.Chooser.meaning chooser.new) }
    {
        self.nodes[usize::from(node)]
            .row
            .settle(chooser, sheets, node)?;
        Ok(Step::Settled)
    }
}
