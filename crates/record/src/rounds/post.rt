ghost use Rattle.std.specs.Prelude.{◌≡◌, [], ◌∷◌, ◌++◌};
ghost use Rattle.record.specs.Card.{ahead, placed};

use super::card::Round;
use std::cmp::Reverse;
use std::mem;

// Whether the first round stands before the second, or may.
fn is_ahead(x: Round, y: Round) -> bool
    ensures { result ≡ ahead x y }
{
    (Reverse(x.day), x.amount) <= (Reverse(y.day), y.amount)
}

// Puts the round in its place, from which each round moves one place on, and gives the one that is driven out at the end.
pub(super) fn put_in_place(rounds: &mut [Round], round: Round) -> Round
    ensures { rounds.new ++ result ∷ [] ≡ placed round rounds.old }
{
    let mut carried = round;
    let mut found = false;
    for here in rounds.iter_mut() {
        found = found || is_ahead(carried, *here);
        if found {
            mem::swap(here, &mut carried);
        }
    }
    carried
}
