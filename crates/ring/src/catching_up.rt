ghost use Rattle.std.specs.Prelude.{◌≡◌, true};
ghost use Rattle.ring.specs.World.{world};
ghost use Rattle.ring.specs.CatchUp.{all_playable, played, CatchesUp};

use crate::ring::Ring;
use record::command::Command;
use record::record::Record;
use rows::conflict::command_of;
use rows::letter::Letter;
use rows::refusal::Refusal;

// Whether each entry names a broadcast message with a lawful command.
fn is_playable<R: Record>(book: &[Command], messages: u8, entries: &[u8]) -> bool
    ensures { result ≡ all_playable R.Record.kind book.now messages entries.now }
{
    entries.iter().all(|entry| *entry < messages && R::is_lawful(command_of(book, *entry)))
}

// Gives the record the commands that the entries name, in their order.
fn play<R: Record>(held: &mut R, book: &[Command], messages: u8, entries: &[u8])
    requires { all_playable R.Record.kind book.now messages entries.now ≡ true }
    ensures { R.Record.told held.new ≡
        played R.Record.kind book.now (R.Record.told held.old) entries.now }
{
    for entry in entries {
        let _ = held.take(command_of(book, *entry));
    }
}

impl Ring {
    // Brings a record up to date: it takes the commands that the node's sheet names from the mark on, and the answer
    // is the new mark, the end of the sheet. Refused, and the record then stays as it is: 4 a table has the wrong
    // size; 7 never started; 8 no such node; 23 the mark is beyond the sheet; 22 an entry from the mark on names no
    // broadcast message, or an unlawful command.
    pub fn catch_up<R: Record>(
        &self,
        tray: &[Letter],
        book: &[Command],
        sheets: &[u8],
        held: &mut R,
        node: u8,
        mark: usize,
    ) -> Result<usize, Refusal>
        ensures { CatchesUp R.Record.kind
            (world self.now tray.now book.now sheets.now) node mark result
            (R.Record.told held.old) (R.Record.told held.new) }
    {
        let sheet = self.show(tray, book, sheets, node)?;
        if mark > sheet.len() {
            return Err(Refusal::MarkBeyondSheet);
        }
        if !is_playable::<R>(book, self.messages, &sheet[mark..]) {
            return Err(Refusal::Unplayable);
        }
        play(held, book, self.messages, &sheet[mark..]);
        Ok(sheet.len())
    }
}
