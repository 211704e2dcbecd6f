ghost use Rattle.std.specs.Prelude.{◌≡◌};
ghost use Rattle.rows.specs.Letters.{data_letter, check_letter};
ghost use Rattle.node.specs.Tables.{lent_in, StillLent};
ghost use Rattle.node.specs.Takes.{Takes};
ghost use Rattle.node.specs.Decides.{Proposes};
ghost use Rattle.node.specs.States.{Leaves, SettlesTo, Shows};

use crate::closing_node::Closing;
use crate::gathering_node::Gathering;
use crate::handover::{Refused, Retired};
use crate::tables::NodeTables;
use chooser::chooser::Chooser;
use rows::letter::{Letter, LetterKind};
use rows::refusal::Refusal;

// A closing node has no call for acknowledgements: it delivers by the decision alone. A host holds back those of a later
// stage, and throws the others away.
impl Closing {
    // Takes data, and relays it if it is new to the node and not its own. Refused: 4 a table has the wrong size; 14 the
    // letter does not travel; 15 it is spoilt, or not data for this node; 16 its stage is later than the node's.
    pub fn take_data(&mut self, tables: &mut NodeTables<'_>, letter: Letter) -> Result<(), Refusal>
        ensures lent { StillLent tables.old tables.new }
        ensures takes { Takes data_letter (lent_in tables.old) self.old.member letter result
            (lent_in tables.new) self.new.member }
    {
        self.member.take(tables, LetterKind::Data, letter)
    }

    // Takes a check, and keeps it while there are fewer than q and none from its sender. Refused: 4; 14; 15 it is
    // spoilt, or no check for this node; 16.
    pub fn take_check(&mut self, tables: &mut NodeTables<'_>, letter: Letter) -> Result<(), Refusal>
        ensures lent { StillLent tables.old tables.new }
        ensures takes { Takes check_letter (lent_in tables.old) self.old.member letter result
            (lent_in tables.new) self.new.member }
    {
        self.member.take(tables, LetterKind::Check, letter)
    }

    // Proposes to the chooser what the checks tell. Refused: 4; 18 it keeps fewer than q checks; 20 the chooser refuses.
    pub fn propose<C: Chooser>(
        &mut self,
        tables: &NodeTables<'_>,
        chooser: &mut C,
    ) -> Result<(), Refusal>
        ensures { Proposes (lent_in tables.now) self.old.member (C.Chooser.meaning chooser.old) result
            self.new.member (C.Chooser.meaning chooser.new) }
    {
        self.member.propose(tables, chooser)
    }

    // Delivers what the chooser decided, and makes the node of the next stage. Refused, and the node then comes back as
    // it was: 4; 19 it has not proposed; 20 the chooser refuses; 19 the stage is undecided.
    pub fn settle<C: Chooser>(
        self,
        tables: &mut NodeTables<'_>,
        chooser: &C,
    ) -> Result<Gathering, Refused<Closing>>
        ensures lent { StillLent tables.old tables.new }
        ensures settles { SettlesTo (lent_in tables.old) self.member (C.Chooser.meaning chooser.now)
            result (lent_in tables.new) }
    {
        let Closing { mut member } = self;
        match member.settle(tables, chooser) {
            Ok(()) => Ok(Gathering { member }),
            Err(refusal) => {
                let node = Closing { member };
                Err(Refused { node, refusal })
            }
        }
    }

    // The stage that the node is in.
    pub fn stage(&self) -> u32
        ensures { result ≡ self.now.member.row.stage }
    {
        self.member.row.stage
    }

    // The numbers of the messages that the node delivered, in order: that part of its sheet itself. Refused: 4 the sheet
    // has the wrong size.
    pub fn show<'s>(&self, sheet: &'s [u8]) -> Result<&'s [u8], Refusal>
        ensures { Shows (λ s. s.now) self.now.member sheet.now result }
    {
        self.member.show(sheet)
    }

    // Ends the node for good, as a crash does. What is left tells its stage and how long its sheet is.
    pub fn retire(self) -> Retired
        ensures { Leaves self.member result }
    {
        let Closing { member } = self;
        member.retired()
    }
}
