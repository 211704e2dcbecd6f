ghost use Rattle.std.specs.Prelude.{◌≡◌, ◌∷◌, if◌then◌else◌};
ghost use Rattle.record.specs.BookTurn.{Turns};
ghost use Rattle.record.specs.ClosingBook.{closing_kind};
ghost use Rattle.record.specs.ClosingBookLaws.{closing_laws};
ghost use Rattle.std.proofs.Common.{rules};

use crate::command::{Command, Unlawful};
use crate::record::Record;
use std::alloc::{AllocError, Global};

const OPEN: u8 = 254;

const CLOSE: u8 = 255;

// Closing book: a record that takes no commands while it is closed.
#[derive(Drop)]
pub struct ClosingBook<B> {
    // Stays a bool: a closed book keeps the record below, and the state is told as 0 or 1, which a bool becomes by From.
    closed: bool,
    below: B,
}

// What a command may turn a book to.
#[derive(Clone, Copy, PartialEq, Eq)]
enum Turn {
    Open,
    Close,
}

// The turn that the command asks for; any other command is for the record below.
fn turn_of(command: Command) -> Option<Turn>
    ensures { Turns command result }
{
    match command.verb {
        OPEN => Some(Turn::Open),
        CLOSE => Some(Turn::Close),
        _ => None,
    }
}

impl<B: Record> Record for ClosingBook<B> {
    ghost kind = { closing_kind B.Record.kind };

    ghost told = { λ b. (if b.closed then 1 else 0) ∷ B.Record.told b.below };

    ghost laws = { closing_laws B.Record.kind B.Record.laws };

    ghost tellable = { Prim.search rules };

    fn new() -> Self {
        ClosingBook {
            closed: false,
            below: B::new(),
        }
    }

    fn is_lawful(command: Command) -> bool {
        match turn_of(command) {
            Some(_) => command.subject == 0 && command.day == 0 && command.amount == 0,
            None => B::is_lawful(command),
        }
    }

    fn in_conflict(a: Command, b: Command) -> bool {
        turn_of(a).is_some() || turn_of(b).is_some() || B::in_conflict(a, b)
    }

    fn take(&mut self, command: Command) -> Result<(), Unlawful> {
        if !Self::is_lawful(command) {
            return Err(Unlawful);
        }
        match turn_of(command) {
            Some(turn) => {
                self.closed = turn == Turn::Close;
                Ok(())
            }
            None if self.closed => Ok(()),
            None => self.below.take(command),
        }
    }

    fn tell(&self, heap: Global) -> Result<Vec<u32>, AllocError> {
        let mut list = vec![in heap; u32::from(self.closed)]?;
        let below = self.below.tell(heap)?;
        list.extend_from_slice(&below)?;
        Ok(list)
    }
}
