ghost use Rattle.std.specs.Prelude.{◌≡◌, ◌<◌};
ghost use Rattle.chooser.specs.Meaning.{asked};
ghost use Rattle.rows.specs.Settlements.{settled_row, settled_sheets, Settles};

use crate::mask::{extend_sheet, without};
use crate::refusal::Refusal;
use crate::row::Row;
use chooser::chooser::Chooser;

impl Row {
    // Delivers the decided sets, what is nonconflicting first, and begins the next stage.
    fn deliver(&mut self, decided: (u64, u64), sheets: &mut [u8], at: u8)
        requires { self.old.stage < 33 }
        ensures row { self.new ≡ settled_row decided self.old }
        ensures sheet { sheets.new ≡ settled_sheets decided self.old at sheets.old }
    {
        let (nonconflicting, conflicting) = decided;
        let known = self.delivered | self.early;
        extend_sheet(sheets, at, known, without(nonconflicting, known));
        let both = known | nonconflicting;
        extend_sheet(sheets, at, both, without(conflicting, both));
        *self = Row::at_stage(self.stage + 1, self.received, both | conflicting);
    }

    // Settles its stage by the chooser's decision. Refused: 20 the chooser refuses the question; 19 it is undecided.
    pub fn settle<C: Chooser>(
        &mut self,
        chooser: &C,
        sheets: &mut [u8],
        at: u8,
    ) -> Result<(), Refusal>
        ensures { Settles
            (asked self.old.stage ((C.Chooser.meaning chooser.now).decision self.old.stage))
            self.old at sheets.old result self.new sheets.new }
    {
        let decided = chooser.decision(self.stage)?.ok_or(Refusal::Undecided)?;
        self.deliver(decided, sheets, at);
        Ok(())
    }
}
