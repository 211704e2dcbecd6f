ghost use Rattle.std.specs.Prelude.{◌≡◌, Some, slice_index};
ghost use Rattle.transcript.specs.Telling.{round_at, round_words, rounds_count, player_text};

use crate::told_text::number_at;
use std::fmt;

// How many rounds of a player are kept.
const ROUNDS: u32 = 20;

// What is added to an amount, so that none is told below zero.
const RAISED: i64 = 10_000;

// A round that is kept of a player.
// Stays beside record's Round: a told list may hold any numbers, which a day and an amount of that type can't.
#[derive(Clone, Copy, Debug, PartialEq, Eq)]
pub struct Round {
    pub day: u32,
    pub amount: i64,
}

// A player, and the numbers that are told of this player.
#[derive(Clone, Copy, Debug)]
pub struct Player<'a> {
    pub number: u8,
    pub told: &'a [u32],
}

impl fmt::Display for Round {
    ghost output = { λ r. Some (round_words r) };

    fn fmt<W: fmt::Write>(&self, f: &mut fmt::Formatter<W>) -> fmt::Result {
        write!(f, "day {} amount {}", self.day, self.amount)
    }
}

impl Player<'_> {
    // How many rounds the player has, no more than are kept.
    fn count(&self) -> u8
        ensures { result ≡ rounds_count self.now.told.now }
    {
        number_at(self.told, 0).min(ROUNDS) as u8
    }

    // One of the rounds.
    // Stays: a list may hold anything, and a round whose numbers it leaves out counts as zeros, so places are asked one by one.
    fn round(&self, round: u8) -> Round
        ensures { result ≡ round_at self.now.told.now round }
    {
        let place = 2 * usize::from(round);
        Round {
            day: number_at(self.told, place + 1),
            amount: i64::from(number_at(self.told, place + 2)) - RAISED,
        }
    }
}

// The line of a player, empty where there is no round.
impl fmt::Display for Player<'_> {
    ghost output = { λ p. Some (player_text p.told.now p.number) };

    fn fmt<W: fmt::Write>(&self, f: &mut fmt::Formatter<W>) -> fmt::Result {
        let count = self.count();
        if count == 0 {
            return Ok(());
        }
        write!(f, "player {}: {}", self.number, self.round(0))?;
        for round in 1..count {
            write!(f, ", {}", self.round(round))?;
        }
        writeln!(f)
    }
}
