ghost use Rattle.std.specs.Prelude.{◌≡◌, ◌++◌};
ghost use Rattle.record.specs.Pair.{pair_kind};
ghost use Rattle.record.specs.PairLaws.{pair_laws, both_tell};
ghost use Rattle.record.specs.PairSide.{GoesTo};

use crate::command::{Command, Unlawful};
use crate::record::Record;
use std::alloc::{AllocError, Global};

// Pair: two records side by side, told one after the other.
#[derive(Drop)]
pub struct Pair<L, R> {
    pub left: L,
    pub right: R,
}

// The side that a command is for, and the command as that side sees it.
#[derive(Clone, Copy)]
enum Side {
    Left(Command),
    Right(Command),
}

impl From<Command> for Side {
    ghost from_gives = { GoesTo };

    fn from(command: Command) -> Self {
        let halved = Command {
            subject: command.subject / 2,
            ..command
        };
        if command.subject % 2 == 0 {
            Side::Left(halved)
        } else {
            Side::Right(halved)
        }
    }
}

impl<L: Record, R: Record> Record for Pair<L, R> {
    ghost kind = { pair_kind L.Record.kind R.Record.kind };

    ghost told = { λ p. L.Record.told p.left ++ R.Record.told p.right };

    ghost laws = { pair_laws L.Record.kind R.Record.kind L.Record.laws R.Record.laws };

    ghost tellable = { λ x.
        let m = L.Record in
        let t = m.tellable x.left in
        both_tell L.Record.kind R.Record.kind (L.Record.told x.left) (R.Record.told x.right)
        (m.laws.steady.sized _ t) t (R.Record.tellable x.right) };

    fn new() -> Self {
        Pair {
            left: L::new(),
            right: R::new(),
        }
    }

    fn is_lawful(command: Command) -> bool {
        match Side::from(command) {
            Side::Left(command) => L::is_lawful(command),
            Side::Right(command) => R::is_lawful(command),
        }
    }

    fn in_conflict(a: Command, b: Command) -> bool {
        if !(Self::is_lawful(a) && Self::is_lawful(b)) {
            return true;
        }
        match (Side::from(a), Side::from(b)) {
            (Side::Left(a), Side::Left(b)) => L::in_conflict(a, b),
            (Side::Right(a), Side::Right(b)) => R::in_conflict(a, b),
            _ => false,
        }
    }

    fn take(&mut self, command: Command) -> Result<(), Unlawful> {
        match Side::from(command) {
            Side::Left(command) => self.left.take(command),
            Side::Right(command) => self.right.take(command),
        }
    }

    fn tell(&self, heap: Global) -> Result<Vec<u32>, AllocError> {
        let mut list = self.left.tell(heap)?;
        let right = self.right.tell(heap)?;
        list.extend_from_slice(&right)?;
        Ok(list)
    }
}
