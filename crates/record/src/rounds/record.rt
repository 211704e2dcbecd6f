ghost use Rattle.record.specs.Rounds.{encode_cards, rounds_kind};
ghost use Rattle.record.specs.Table.{all_kept};
ghost use Rattle.record.specs.CardLaws.{order_placed, range_placed};
ghost use Rattle.record.specs.Placing.{placed_ahead, placed_take};
ghost use Rattle.record.specs.RoundsLaws.{rounds_laws};
ghost use Rattle.record.specs.Tables.{table_tells};

use super::Rounds;
use super::card::Card;
use super::order::{Change, Order};
use crate::command::{Command, Unlawful};
use crate::record::Record;
use std::alloc::{AllocError, Global};

impl Record for Rounds {
    ghost kind = { rounds_kind };

    ghost told = { λ x. encode_cards (all_kept x.cards) };

    ghost laws = { rounds_laws
        (record { either_first = placed_ahead; past = placed_take; ordered = order_placed; ranged = range_placed }) };

    ghost tellable = { λ x. table_tells x.cards x.eight };

    fn new() -> Self {
        Rounds {
            cards: [Card::new(); 8],
        }
    }

    fn is_lawful(command: Command) -> bool {
        Order::try_from(command).is_ok()
    }

    fn in_conflict(a: Command, b: Command) -> bool {
        let Ok(a) = Order::try_from(a) else {
            return true;
        };
        let Ok(b) = Order::try_from(b) else {
            return true;
        };
        match (a.change, b.change) {
            (Change::Post(_), Change::Post(_)) => false,
            _ => a.player == b.player,
        }
    }

    fn take(&mut self, command: Command) -> Result<(), Unlawful> {
        let Order { player, change } = Order::try_from(command)?;
        self.cards[player] = self.cards[player].after(change);
        Ok(())
    }

    fn tell(&self, heap: Global) -> Result<Vec<u32>, AllocError> {
        let mut list = Vec::new(heap);
        for card in &self.cards {
            card.tell_onto(&mut list)?;
        }
        Ok(list)
    }
}
