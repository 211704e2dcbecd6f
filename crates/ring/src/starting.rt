ghost use Rattle.std.specs.Prelude.{◌≡◌, ◌≤◌, not, length, replicate, ◌==◌};
ghost use Rattle.ring.specs.World.{world};
ghost use Rattle.ring.specs.Start.{is_used, in_use, Starts};
ghost use Rattle.ring.specs.Following.{EveryRecordFollows};
ghost use Rattle.ring.specs.Theorem.{EveryDayKeeps};

use crate::ring::Ring;
use crate::tables::check_sizes;
use chooser::chooser::Chooser;
use record::command::Command;
use rows::letter::Letter;
use rows::refusal::Refusal;
use rows::size::RingSize;

const STAGES: u32 = 32;

// Whether the stage has a proposal.
fn has_proposal<C: Chooser>(chooser: &C, stage: u32) -> bool
    ensures { result ≡ is_used (C.Chooser.meaning chooser.now) stage }
{
    chooser.count(stage).is_ok_and(|count| count != 0)
}

// Whether any of the chooser's stages has a proposal.
fn is_in_use<C: Chooser>(chooser: &C) -> bool
    ensures { result ≡ in_use (C.Chooser.meaning chooser.now) 32 }
{
    (1..STAGES + 1).any(|stage| has_proposal(chooser, stage))
}

impl Ring {
    // Starts a day: empties the tables and the ring, which gets this size. Refused: 4 a table has the wrong size; 5 the
    // chooser's need is above the quorum; 6 a stage of the chooser has a proposal. Once it is accepted, whatever calls
    // follow, every promise of a day is kept at every point of it (the theorem), and records follow nodes in parts.
    pub fn start<C: Chooser>(
        &mut self,
        tray: &mut [Letter],
        book: &mut [Command],
        sheets: &mut [u8],
        chooser: &C,
        size: RingSize,
    ) -> Result<(), Refusal>
        ensures start { Starts size
            (world self.old tray.old book.old sheets.old)
            (C.Chooser.meaning chooser.now) result
            (world self.new tray.new book.new sheets.new) }
        ensures days { EveryDayKeeps size result
            (world self.new tray.new book.new sheets.new)
            (C.Chooser.meaning chooser.now) }
        ensures follows { EveryRecordFollows size result
            (world self.new tray.new book.new sheets.new)
            (C.Chooser.meaning chooser.now) }
    {
        check_sizes(tray, book, sheets)?;
        if chooser.need() > size.q {
            return Err(Refusal::NeedAboveQuorum);
        }
        if is_in_use(chooser) {
            return Err(Refusal::ChooserInUse);
        }
        tray.fill(Letter::default());
        book.fill(Command::default());
        sheets.fill(0);
        *self = Ring::of_size(size);
        Ok(())
    }
}
