ghost use Rattle.std.specs.Prelude.{◌≡◌, ◌<◌, true};
ghost use Rattle.record.specs.Change.{fits};

use super::card::Round;
use crate::command::{Command, Unlawful};

const POST: u8 = 1;

const ADJUST: u8 = 2;

const PLAYERS: u16 = 8;

// What happens to a card.
#[derive(Clone, Copy)]
pub(super) enum Change {
    Post(Round),
    Adjust(i16),
}

// What a lawful command asks: a change of one player's card.
#[derive(Clone, Copy)]
pub(super) struct Order {
    pub player: usize,
    pub change: Change,
    ghost known: { player < 8 },
    ghost fitting: { fits change ≡ true },
}

impl TryFrom<Command> for Order {
    ghost use Rattle.record.specs.RoundsOrder.{Orders};

    type Error = Unlawful;

    ghost try_from_gives = { Orders };

    fn try_from(command: Command) -> Result<Self, Unlawful> {
        let change = match (command.verb, command.day, command.amount) {
            (POST, day, amount @ -999..=999) => Change::Post(Round { day, amount }),
            (ADJUST, 0, by @ -100..=100) => Change::Adjust(by),
            _ => return Err(Unlawful),
        };
        if command.subject < PLAYERS {
            let player = usize::from(command.subject);
            Ok(Order { player, change })
        } else {
            Err(Unlawful)
        }
    }
}
