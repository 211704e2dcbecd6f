ghost use Rattle.std.specs.Prelude.{◌≡◌, IfOk, string_bytes};
ghost use Rattle.transcript.specs.Telling.{rounds_text};

use crate::player::Player;
use std::alloc::{AllocError, Global};

// How many players there are.
const PLAYERS: u8 = 8;

// How many numbers are told of a player: the count of rounds, and two for each round that is kept.
const NUMBERS: usize = 41;

// The lines of all players that have a round, or that there is none.
pub(crate) fn rounds_text(heap: Global, list: &[u32]) -> Result<String, AllocError>
    ensures { IfOk result (λ s. string_bytes s ≡ rounds_text list.now) }
{
    let mut text = String::new(heap);
    for (number, told) in (0..PLAYERS).zip(list.chunks(NUMBERS)) {
        write!(text, "{}", Player { number, told })?;
    }
    if text.is_empty() {
        text.push_str("no rounds\n")?;
    }
    Ok(text)
}
