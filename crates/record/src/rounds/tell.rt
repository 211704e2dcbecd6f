ghost use Rattle.std.specs.Prelude.{◌≡◌, ◌++◌, OnOk};
ghost use Rattle.record.specs.Rounds.{raised, pairs};

use super::card::Round;
use std::alloc::AllocError;

// The amount plus 10,000, which is never negative on a card.
fn raise(amount: i16) -> u32
    ensures { result ≡ raised amount }
{
    u32::from(10_000u16.saturating_add_signed(amount))
}

// Tells day and amount of each round.
pub(super) fn tell_pairs(list: &mut Vec<u32>, rounds: &[Round]) -> Result<(), AllocError>
    ensures { OnOk result (list.new.items ≡ list.old.items ++ pairs rounds.now) }
{
    for round in rounds {
        list.push(u32::from(round.day))?;
        list.push(raise(round.amount))?;
    }
    Ok(())
}
