ghost use Rattle.std.specs.Prelude.{◌≡◌};
ghost use Rattle.chooser.specs.Meaning.{Sound};
ghost use Rattle.ring.specs.World.{world};
ghost use Rattle.ring.specs.Step.{Steps};

use crate::ring::Ring;
use crate::step::Step;
use crate::tables::check_sizes;
use chooser::chooser::Chooser;
use record::command::Command;
use record::record::Record;
use rows::letter::Letter;
use rows::refusal::Refusal;
use rows::row::Phase;

impl Ring {
    // Lets a node take its next step: a gathering node acknowledges what it has not delivered or closes its stage; a
    // closing node proposes, and then settles. The answer says which. Refused: 4 a table has the wrong size; 7 never
    // started; 8 no such node; 9 it has crashed; and then, gathering, 17 all is acknowledged, 12 fewer free places than
    // nodes; closing, 18 fewer checks than q, 20 the chooser refuses; having proposed, 20, 19 undecided.
    pub fn step<R: Record, C: Chooser>(
        &mut self,
        tray: &mut [Letter],
        book: &[Command],
        sheets: &mut [u8],
        chooser: &mut C,
        node: u8,
    ) -> Result<Step, Refusal>
        ensures sound { Sound (C.Chooser.meaning chooser.new) }
        ensures step { Steps R.Record.kind
            (world self.old tray.old book.now sheets.old)
            (C.Chooser.meaning chooser.old) node result
            (world self.new tray.new book.now sheets.new)
            (C.Chooser.meaning chooser.new) }
    {
        check_sizes(tray, book, sheets)?;
        let size = self.with_live_node(node)?;
        // Stays a match: the phase is data, and each of the three steps takes other parameters.
        match self.nodes[usize::from(node)].row.phase {
            Phase::Gathering | Phase::Ahead => self.gather::<R>(tray, book, size, node),
            Phase::Closing => self.propose(chooser, size, node),
            Phase::Waiting => self.settle(sheets, chooser, node),
        }
    }
}
