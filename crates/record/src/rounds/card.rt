ghost use Rattle.std.specs.Prelude.{◌≡◌, ◌≤◌, true, length, take};
ghost use Rattle.record.specs.Card.{in_range, is_card};

use super::adjust::adjust_each;
use super::order::Change;
use super::post::put_in_place;
use super::tell::tell_pairs;
use std::alloc::AllocError;

// One round of golf: its day, and what it counts.
#[derive(Clone, Copy, Default)]
pub struct Round {
    pub day: u16,
    pub amount: i16,
}

// A player's kept rounds, which are the first `count`: later days first, and lower amounts first within a day.
// Stays an array with a count: a Vec allocates, and an ArrayVec is not Copy, as a card is, and is one more crate to trust.
#[derive(Clone, Copy)]
pub struct Card {
    pub count: usize,
    pub rounds: [Round; 20],
    ghost room: { count ≤ 20 },
    ghost in_play: { is_card (take count rounds) ≡ true },
}

impl Card {
    ghost use Rattle.std.specs.Prelude.{[], ◌++◌, OnOk};
    ghost use Rattle.record.specs.Card.{adjusted, posted};
    ghost use Rattle.record.specs.Change.{fits, changed_by};
    ghost use Rattle.record.specs.Rounds.{encode_card};
    ghost use Rattle.record.specs.Table.{kept};

    // A card with no rounds yet.
    pub(super) fn new() -> Self
        ensures { kept result ≡ [] }
    {
        Card {
            count: 0,
            rounds: [Round::default(); 20],
        }
    }

    // The card once the change is made.
    pub(super) fn after(self, change: Change) -> Self
        requires { fits change ≡ true }
        ensures { kept result ≡ changed_by change (kept self) }
    {
        match change {
            Change::Post(round) => self.with_posted(round),
            Change::Adjust(by) => self.with_adjusted(by),
        }
    }

    // The card with the round in its place; the last of 21 falls out.
    fn with_posted(self, round: Round) -> Self
        requires { in_range round ≡ true }
        ensures { kept result ≡ posted round (kept self) }
    {
        let Card {
            mut count,
            mut rounds,
        } = self;
        let last = put_in_place(&mut rounds[..count], round);
        if count < 20 {
            rounds[count] = last;
            count += 1;
        }
        Card { count, rounds }
    }

    // The card with the adjustment added to each kept round.
    fn with_adjusted(self, by: i16) -> Self
        ensures { kept result ≡ adjusted by (kept self) }
    {
        let Card { count, mut rounds } = self;
        adjust_each(&mut rounds[..count], by);
        Card { count, rounds }
    }

    // Tells the card in 41 numbers: the count, the kept rounds, and zeros for the unused ones.
    pub(super) fn tell_onto(&self, list: &mut Vec<u32>) -> Result<(), AllocError>
        ensures { OnOk result (list.new.items ≡ list.old.items ++ encode_card (kept self.now)) }
    {
        let count = self.count;
        list.push(count as u32)?;
        tell_pairs(list, &self.rounds[..count])?;
        list.resize(list.len() + (40 - 2 * count), 0)
    }
}
