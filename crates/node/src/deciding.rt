ghost use Rattle.std.specs.Prelude.{◌≡◌, OnErr};
ghost use Rattle.node.specs.Tables.{lent_in, StillLent};
ghost use Rattle.node.specs.Decides.{Proposes, Settles};

use crate::member::Member;
use crate::tables::NodeTables;
use chooser::chooser::Chooser;
use rows::refusal::Refusal;

impl Member {
    // Proposes to the chooser. Refused: 4 a table has the wrong size; 18 fewer than q checks are kept; 20 the chooser
    // refuses.
    pub(crate) fn propose<C: Chooser>(
        &mut self,
        tables: &NodeTables<'_>,
        chooser: &mut C,
    ) -> Result<(), Refusal>
        ensures { Proposes (lent_in tables.now) self.old (C.Chooser.meaning chooser.old) result
            self.new (C.Chooser.meaning chooser.new) }
    {
        tables.check_sizes(self.size)?;
        self.row.propose(self.size, chooser, self.number)
    }

    // Delivers what the chooser decided, and begins the next stage. Refused: 4; 19 the node has not proposed; 20 the
    // chooser refuses; 19 the stage is undecided.
    pub(crate) fn settle<C: Chooser>(
        &mut self,
        tables: &mut NodeTables<'_>,
        chooser: &C,
    ) -> Result<(), Refusal>
        ensures lent { StillLent tables.old tables.new }
        ensures settles { Settles (lent_in tables.old) self.old (C.Chooser.meaning chooser.now) result
            (lent_in tables.new) self.new }
        ensures kept { OnErr result (self.new ≡ self.old) }
    {
        tables.check_sizes(self.size)?;
        if !self.row.phase.has_proposed() {
            return Err(Refusal::Undecided);
        }
        self.row.settle(chooser, tables.sheet, 0)
    }
}
