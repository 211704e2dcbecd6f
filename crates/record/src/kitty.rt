ghost use Rattle.std.specs.Prelude.{◌≡◌, ◌≤◌, [], ◌∷◌};
ghost use Rattle.record.specs.Kitty.{kitty_kind};
ghost use Rattle.record.specs.KittyLaws.{kitty_laws};
ghost use Rattle.record.specs.KittyOrder.{Orders};
ghost use Rattle.std.proofs.Common.{rules, arith};

use crate::command::{Command, Unlawful};
use crate::record::Record;
use std::alloc::{AllocError, Global};

const PAY: u8 = 1;

const DRAW: u8 = 2;

const MOST: i16 = 30_000;

// What a lawful command asks of a kitty, with its amount.
#[derive(Clone, Copy)]
enum Order {
    Pay(u32),
    Draw(u32),
}

impl TryFrom<Command> for Order {
    type Error = Unlawful;

    ghost try_from_gives = { Orders };

    fn try_from(command: Command) -> Result<Self, Unlawful> {
        if command.subject != 0 || command.day != 0 || !(1..=MOST).contains(&command.amount) {
            return Err(Unlawful);
        }
        let amount = u32::from(command.amount.unsigned_abs());
        match command.verb {
            PAY => Ok(Order::Pay(amount)),
            DRAW => Ok(Order::Draw(amount)),
            _ => Err(Unlawful),
        }
    }
}

// Kitty: common money, told as its balance.
#[derive(Drop)]
pub struct Kitty {
    balance: u32,
    ghost bounded: { balance ≤ 4294967295 },
}

impl Record for Kitty {
    ghost kind = { kitty_kind };

    ghost told = { λ k. k.balance ∷ [] };

    ghost laws = { kitty_laws };

    ghost tellable = { first_of (Prim.search rules, Prim.grind (arith, Self.row.coded.inj)) };

    fn new() -> Self {
        Kitty { balance: 0 }
    }

    fn is_lawful(command: Command) -> bool {
        Order::try_from(command).is_ok()
    }

    fn in_conflict(a: Command, b: Command) -> bool {
        match (Order::try_from(a), Order::try_from(b)) {
            (Ok(Order::Pay(_)), Ok(Order::Pay(_))) => false,
            _ => true,
        }
    }

    fn take(&mut self, command: Command) -> Result<(), Unlawful> {
        match Order::try_from(command)? {
            Order::Pay(amount) => self.balance = self.balance.saturating_add(amount),
            Order::Draw(amount) if amount <= self.balance => self.balance -= amount,
            Order::Draw(_) => {}
        }
        Ok(())
    }

    fn tell(&self, heap: Global) -> Result<Vec<u32>, AllocError> {
        Ok(vec![in heap; self.balance]?)
    }
}
