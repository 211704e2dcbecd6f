ghost use Rattle.rows.specs.Proposals.{PutsForward};

use crate::mask::without;
use crate::refusal::Refusal;
use crate::row::Row;
use crate::size::RingSize;
use crate::tally::in_most;
use chooser::chooser::Chooser;

impl Row {
    // Proposes for its stage: as nonconflicting the messages in more than half of the q kept checks, as conflicting
    // its other undelivered ones. Refused: 18 fewer than q checks are kept; 20 the chooser refuses.
    pub fn propose<C: Chooser>(
        &mut self,
        size: RingSize,
        chooser: &mut C,
        node: u8,
    ) -> Result<(), Refusal>
        ensures { PutsForward size.q node self.old (C.Chooser.meaning chooser.old) result
            self.new (C.Chooser.meaning chooser.new) }
    {
        if self.checked < size.q {
            return Err(Refusal::TooFewChecks);
        }
        let nonconflicting = in_most(&self.checks[..usize::from(size.q)]);
        let conflicting = without(self.undelivered(), nonconflicting);
        chooser.propose(self.stage, node, (nonconflicting, conflicting))?;
        self.phase = self.phase.proposed();
        Ok(())
    }
}
