ghost use Rattle.ring.specs.World.{world};
ghost use Rattle.ring.specs.Broadcast.{Broadcasts};

use crate::ring::Ring;
use crate::tables::check_sizes;
use record::command::Command;
use record::record::Record;
use rows::letter::Letter;
use rows::refusal::Refusal;

const MOST_MESSAGES: u8 = 64;

impl Ring {
    // Broadcasts a command: writes it into the book as the next message, sends it to all nodes, and answers its number.
    // Refused: 4 a table has the wrong size; 7 never started; 8 no such node; 9 it has crashed; 10 the command is
    // unlawful; 11 there are 64 messages; 12 fewer free places than nodes.
    pub fn broadcast<R: Record>(
        &mut self,
        tray: &mut [Letter],
        book: &mut [Command],
        sheets: &[u8],
        node: u8,
        command: Command,
    ) -> Result<u8, Refusal>
        ensures { Broadcasts R.Record.kind
            (world self.old tray.old book.old sheets.now) node command result
            (world self.new tray.new book.new sheets.now) }
    {
        check_sizes(tray, book, sheets)?;
        let size = self.with_live_node(node)?;
        if !R::is_lawful(command) {
            return Err(Refusal::UnlawfulCommand);
        }
        let message = self.messages;
        if message >= MOST_MESSAGES {
            return Err(Refusal::BookFull);
        }
        let letter = Letter::data(node, 1u64 << message);
        self.send(tray, size, letter)?;
        book[usize::from(message)] = command;
        self.broadcasters[usize::from(message)] = node;
        self.messages = message + 1;
        Ok(message)
    }
}
