ghost use Rattle.ring.specs.World.{world};
ghost use Rattle.replay.specs.WholeDay.{Days};

use crate::run::run;
use crate::tally::Tally;
use chooser::chooser::Chooser;
use record::command::Command;
use record::record::Record;
use ring::ring::Ring;
use rows::letter::Letter;
use rows::refusal::Refusal;
use rows::size::RingSize;
use schedule::reader::Reader;

// A day from its start: starts the ring and gives it the entries that the reader has ahead. The promises of a day hold of
// what it leaves. Refused where the start is: 4 a table has the wrong size; 5 the chooser's need is above the quorum; 6 a
// stage of the chooser has a proposal.
// Stays with ring, tables and chooser apart, as `run` does.
pub fn run_day<R: Record, C: Chooser>(
    ring: &mut Ring,
    tray: &mut [Letter],
    book: &mut [Command],
    sheets: &mut [u8],
    chooser: &mut C,
    size: RingSize,
    reader: Reader<'_>,
) -> Result<Tally, Refusal>
    ensures { Days R.Record.kind size reader.entry.bytes.now reader.entry.place
        (world ring.old tray.old book.old sheets.old)
        (C.Chooser.meaning chooser.old) result
        (world ring.new tray.new book.new sheets.new)
        (C.Chooser.meaning chooser.new) }
{
    ring.start(tray, book, sheets, chooser, size)?;
    Ok(run::<R, C>(ring, tray, book, sheets, chooser, reader))
}
