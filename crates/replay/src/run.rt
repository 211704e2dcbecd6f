ghost use Rattle.ring.specs.World.{world};
ghost use Rattle.ring.specs.Day.{Day};
ghost use Rattle.replay.specs.Runs.{Runs};

use crate::tally::Tally;
use crate::turn::perform;
use chooser::chooser::Chooser;
use record::command::Command;
use record::record::Record;
use ring::ring::Ring;
use rows::letter::Letter;
use schedule::reader::Reader;

// Gives the entries that the reader has ahead to the ring in order, to the end of the bytes or to a fault.
// Stays with ring, tables and chooser apart, as a call of a ring takes them.
#[tactic(auto, using(crate::proofs::Ways::run_ways))]
pub fn run<R: Record, C: Chooser>(
    ring: &mut Ring,
    tray: &mut [Letter],
    book: &mut [Command],
    sheets: &mut [u8],
    chooser: &mut C,
    reader: Reader<'_>,
) -> Tally
    ensures ran { Runs R.Record.kind reader.entry.bytes.now reader.entry.place
        (world ring.old tray.old book.old sheets.old)
        (C.Chooser.meaning chooser.old)
        (world ring.new tray.new book.new sheets.new)
        (C.Chooser.meaning chooser.new) result.accepted result.refused result.fault }
    ensures day { Day R.Record.kind
        (world ring.old tray.old book.old sheets.old)
        (C.Chooser.meaning chooser.old)
        (world ring.new tray.new book.new sheets.new)
        (C.Chooser.meaning chooser.new) }
{
    let mut tally = Tally::default();
    for read in reader.entries() {
        match read {
            Ok(entry) => {
                if perform::<R, C>(ring, tray, book, sheets, chooser, entry) {
                    tally.accepted += 1;
                } else {
                    tally.refused += 1;
                }
            }
            Err(fault) => {
                return Tally {
                    fault: Some(fault),
                    ..tally
                };
            }
        }
    }
    tally
}
