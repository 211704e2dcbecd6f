ghost use Rattle.std.specs.Prelude.{◌≡◌, ℕ, ◌<◌, List, Some};
ghost use Rattle.ring.specs.World.{world};
ghost use Rattle.ring.specs.Gather.{Gathers};

use crate::ring::Ring;
use crate::step::Step;
use record::command::Command;
use record::record::Record;
use rows::conflict::find_conflict;
use rows::letter::Letter;
use rows::refusal::Refusal;
use rows::size::RingSize;

impl Ring {
    // Stays in three contracts that the ring has this size: it ties a value to the ring, which a start changes in place,
    // so that no type of started rings could say it.

    // The step of a gathering node: it acknowledges all that it has not delivered, or, where two messages of that
    // conflict, sends its check and closes the stage. It is lent no sheets, and its contract holds of any. Refused: 17 it
    // has acknowledged all of it; 12 fewer free places than nodes.
    pub(crate) fn gather<R: Record>(
        &mut self,
        tray: &mut [Letter],
        book: &[Command],
        size: RingSize,
        node: u8,
    ) -> Result<Step, Refusal>
        requires started { self.old.size ≡ Some size }
        requires inside { node < size.n }
        ensures { (sheets : List ℕ) → Gathers R.Record.kind.conflicts
            (world self.old tray.old book.now sheets) node result
            (world self.new tray.new book.now sheets) }
    {
        let row = self.nodes[usize::from(node)].row;
        let undelivered = row.undelivered();
        if undelivered & !row.pending == 0 {
            return Err(Refusal::NothingNew);
        }
        match find_conflict::<R>(book, undelivered) {
            None => {
                let acknowledgement = Letter::acknowledgement(node, row.stage, undelivered);
                self.send(tray, size, acknowledgement)?;
                self.nodes[usize::from(node)].row.acknowledge();
                Ok(Step::Acknowledged)
            }
            Some((a, b)) => {
                let check = Letter::check(node, row.stage, row.pending);
                self.send(tray, size, check)?;
                self.nodes[usize::from(node)].row.close();
                Ok(Step::Closed(a, b))
            }
        }
    }
}
