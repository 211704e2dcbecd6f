ghost use Rattle.ring.specs.World.{world};
ghost use Rattle.schedule.specs.Entries.{act_of};
ghost use Rattle.replay.specs.Turns.{Turn};

use chooser::chooser::Chooser;
use record::command::Command;
use record::record::Record;
use ring::ring::Ring;
use rows::letter::Letter;
use schedule::entry::Entry;

// Gives one entry to the ring, and tells whether the ring accepted it.
// Stays a bool by a match: a run counts the two answers and asks no more, and each entry is a call of its own.
// Stays with ring, tables and chooser apart, as `run` does.
#[tactic(auto, using(crate::proofs::Ways::turn_ways))]
pub fn perform<R: Record, C: Chooser>(
    ring: &mut Ring,
    tray: &mut [Letter],
    book: &mut [Command],
    sheets: &mut [u8],
    chooser: &mut C,
    entry: Entry<'_>,
) -> bool
    ensures { Turn R.Record.kind
        (world ring.old tray.old book.old sheets.old)
        (C.Chooser.meaning chooser.old) (act_of entry.entry) result
        (world ring.new tray.new book.new sheets.new)
        (C.Chooser.meaning chooser.new) }
{
    match entry {
        Entry::Broadcast {
            node,
            command,
            body: _,
        } => ring
            .broadcast::<R>(tray, book, sheets, node, command)
            .is_ok(),
        Entry::Receive { place } => ring.receive(tray, book, sheets, usize::from(place)).is_ok(),
        Entry::Step { node } => ring.step::<R, C>(tray, book, sheets, chooser, node).is_ok(),
        Entry::Crash { node } => ring.crash(node).is_ok(),
        Entry::Lose { place } => ring.lose(tray, book, sheets, usize::from(place)).is_ok(),
    }
}
