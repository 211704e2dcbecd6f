ghost use Rattle.std.specs.Prelude.{length};
ghost use Rattle.ring.specs.World.{Fits};

use record::command::Command;
use rows::letter::Letter;
use rows::refusal::Refusal;

const MOST_LETTERS: usize = 4096;

const COMMANDS: usize = 64;

const SHEETS: usize = 448;

// Whether tables of these sizes may be lent: 1 to 4,096 letters, 64 commands, 448 bytes of sheets. Refused: 4 one has
// the wrong size.
pub(crate) fn check_sizes(tray: &[Letter], book: &[Command], sheets: &[u8]) -> Result<(), Refusal>
    ensures { Fits (length tray.now) (length book.now) (length sheets.now) result }
{
    if !(1..=MOST_LETTERS).contains(&tray.len())
        || book.len() != COMMANDS
        || sheets.len() != SHEETS
    {
        return Err(Refusal::WrongTableSize);
    }
    Ok(())
}
