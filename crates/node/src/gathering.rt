ghost use Rattle.std.specs.Prelude.{◌≡◌};
ghost use Rattle.rows.specs.Letters.{data_letter, acknowledgement, check_letter};
ghost use Rattle.node.specs.Tables.{lent_in, StillLent};
ghost use Rattle.node.specs.Takes.{Takes};
ghost use Rattle.node.specs.Gathers.{Acknowledges};
ghost use Rattle.node.specs.Alike.{GoesAsInARing};
ghost use Rattle.node.specs.States.{Begins, ClosesTo, Leaves, Shows};

use crate::closing_node::Closing;
use crate::gathering_node::Gathering;
use crate::handover::{Closed, Refused, Retired};
use crate::member::Member;
use crate::tables::NodeTables;
use chooser::chooser::Chooser;
use record::record::Record;
use rows::letter::{Letter, LetterKind};
use rows::refusal::Refusal;
use rows::row::Row;
use rows::size::RingSize;

impl Gathering {
    // The node of this number at the start of a ring. Refused: 8 there is no such node; 5 the chooser's need is above
    // the quorum.
    pub fn new<C: Chooser>(size: RingSize, number: u8, chooser: &C) -> Result<Gathering, Refusal>
        ensures begins { Begins size number (C.Chooser.meaning chooser.now).need result }
        ensures alike { GoesAsInARing size number result }
    {
        if number >= size.n {
            return Err(Refusal::NoSuchNode);
        }
        if chooser.need() > size.q {
            return Err(Refusal::NeedAboveQuorum);
        }
        let row = Row::new();
        let member = Member { number, size, row };
        Ok(Gathering { member })
    }

    // Takes data, and relays it if it is new to the node and not its own. Refused: 4 a table has the wrong size; 14 the
    // letter does not travel; 15 it is spoilt, or not data for this node; 16 its stage is later than the node's.
    pub fn take_data(&mut self, tables: &mut NodeTables<'_>, letter: Letter) -> Result<(), Refusal>
        ensures lent { StillLent tables.old tables.new }
        ensures takes { Takes data_letter (lent_in tables.old) self.old.member letter result
            (lent_in tables.new) self.new.member }
    {
        self.member.take(tables, LetterKind::Data, letter)
    }

    // Takes an acknowledgement, and delivers what a quorum has now acknowledged. Refused: 4; 14; 15 it is spoilt, or no
    // acknowledgement for this node; 16.
    pub fn take_acknowledgement(
        &mut self,
        tables: &mut NodeTables<'_>,
        letter: Letter,
    ) -> Result<(), Refusal>
        ensures lent { StillLent tables.old tables.new }
        ensures takes { Takes acknowledgement (lent_in tables.old) self.old.member letter result
            (lent_in tables.new) self.new.member }
    {
        self.member
            .take(tables, LetterKind::Acknowledgement, letter)
    }

    // Takes a check, and keeps it while there are fewer than q and none from its sender. Refused: 4; 14; 15 it is
    // spoilt, or no check for this node; 16.
    pub fn take_check(&mut self, tables: &mut NodeTables<'_>, letter: Letter) -> Result<(), Refusal>
        ensures lent { StillLent tables.old tables.new }
        ensures takes { Takes check_letter (lent_in tables.old) self.old.member letter result
            (lent_in tables.new) self.new.member }
    {
        self.member.take(tables, LetterKind::Check, letter)
    }

    // Acknowledges to all what it has not delivered. Refused: 4 a table has the wrong size; 17 all of it is
    // acknowledged, or two messages of it conflict.
    pub fn acknowledge<R: Record>(&mut self, tables: &mut NodeTables<'_>) -> Result<(), Refusal>
        ensures lent { StillLent tables.old tables.new }
        ensures acknowledges { Acknowledges R.Record.kind.conflicts (lent_in tables.old) self.old.member
            result (lent_in tables.new) self.new.member }
    {
        self.member.acknowledge::<R>(tables)
    }

    // Closes the stage over two messages that conflict, and sends its check to all. Refused, and the node then comes
    // back as it was: 4; 17 all that it has not delivered is acknowledged, or no two messages of it conflict.
    pub fn close<R: Record>(self, tables: &mut NodeTables<'_>) -> Result<Closed, Refused<Gathering>>
        ensures lent { StillLent tables.old tables.new }
        ensures closes { ClosesTo R.Record.kind.conflicts (lent_in tables.old) self.member result
            (lent_in tables.new) }
    {
        let Gathering { mut member } = self;
        match member.close::<R>(tables) {
            Ok(pair) => {
                let node = Closing { member };
                Ok(Closed { node, pair })
            }
            Err(refusal) => {
                let node = Gathering { member };
                Err(Refused { node, refusal })
            }
        }
    }

    // The stage that the node is in.
    pub fn stage(&self) -> u32
        ensures { result ≡ self.now.member.row.stage }
    {
        self.member.row.stage
    }

    // The numbers of the messages that the node delivered, in order: that part of its sheet itself. Refused: 4 the sheet
    // has the wrong size.
    pub fn show<'s>(&self, sheet: &'s [u8]) -> Result<&'s [u8], Refusal>
        ensures { Shows (λ s. s.now) self.now.member sheet.now result }
    {
        self.member.show(sheet)
    }

    // Ends the node for good, as a crash does. What is left tells its stage and how long its sheet is.
    pub fn retire(self) -> Retired
        ensures { Leaves self.member result }
    {
        let Gathering { member } = self;
        member.retired()
    }
}
