ghost use Rattle.std.specs.Prelude.{◌≡◌, length};
ghost use Rattle.node.specs.Tables.{Fits};

use record::command::Command;
use rows::letter::Letter;
use rows::refusal::Refusal;
use rows::size::RingSize;

// How many messages a ring has room for.
pub(crate) const MESSAGES: usize = 64;

// The tables that a host lends to a call of a node: the book of the commands of all messages; for each message the node
// that broadcast it, 255 where none has; the letters that a sending writes over, one for each node; and the node's sheet.
#[derive(Drop)]
pub struct NodeTables<'a> {
    pub book: &'a [Command],
    pub broadcasters: &'a [u8],
    pub letters: &'a mut [Letter],
    pub sheet: &'a mut [u8],
}

impl NodeTables<'_> {
    // Whether tables of these sizes may be lent to a node of a ring of this size: 64 commands, 64 broadcasters, as many
    // letters as nodes, 64 bytes of sheet. Refused: 4 one has the wrong size.
    pub(crate) fn check_sizes(&self, size: RingSize) -> Result<(), Refusal>
        ensures { Fits size.n (length self.now.book.now) (length self.now.broadcasters.now)
            (length self.now.letters.now) (length self.now.sheet.now) result }
    {
        if self.book.len() != MESSAGES
            || self.broadcasters.len() != MESSAGES
            || self.letters.len() != usize::from(size.n)
            || self.sheet.len() != MESSAGES
        {
            return Err(Refusal::WrongTableSize);
        }
        Ok(())
    }
}
