ghost use Rattle.std.specs.Prelude.{◌≡◌, ℕ, true, List, IfOk};
ghost use Rattle.record.specs.Kind.{Kind, Laws, Taken};

use crate::command::{Command, Unlawful};
use std::alloc::{AllocError, Global};

// A record: replicated state that tells a list of numbers, and means nothing beyond that list.
pub trait Record: Sized {
    // what the kind means, apart from any one record
    ghost kind: { Kind };

    // the list that a record tells
    ghost told: { Self → List ℕ };

    // A record as it is at first.
    fn new() -> Self
        ensures { told result ≡ kind.taking.first };

    // Whether the command may be taken. No record is asked, since none matters.
    fn is_lawful(command: Command) -> bool
        ensures { result ≡ kind.taking.lawful command };

    // Whether every server must take the two commands in one order.
    fn in_conflict(a: Command, b: Command) -> bool
        ensures { result ≡ kind.conflicts a b };

    // Takes a lawful command; refuses an unlawful one with 10, and stays as it is.
    fn take(&mut self, command: Command) -> Result<(), Unlawful>
        ensures { Taken kind.taking command result (told self.old) (told self.new) };

    // The list of numbers that this record tells.
    fn tell(&self, heap: Global) -> Result<Vec<u32>, AllocError>
        ensures { IfOk result (λ v. v.items ≡ told self.now) };

    ghost laws: { Laws kind };

    ghost tellable: { (x : Self) → kind.taking.tells (told x) ≡ true };
}
