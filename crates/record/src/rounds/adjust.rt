ghost use Rattle.std.specs.Prelude.{◌≡◌, ◌+ℤ◌};
ghost use Rattle.record.specs.Card.{clamped, adjusted};

use super::card::Round;

const END: i32 = 9_999;

// The amount with the adjustment added, no further than either end.
fn adjust_amount(amount: i16, by: i16) -> i16
    ensures { result ≡ clamped (amount +ℤ by) }
{
    (i32::from(amount) + i32::from(by)).clamp(-END, END) as i16
}

// Adds the adjustment to each round.
pub(super) fn adjust_each(rounds: &mut [Round], by: i16)
    ensures { rounds.new ≡ adjusted by rounds.old }
{
    for round in rounds.iter_mut() {
        round.amount = adjust_amount(round.amount, by);
    }
}
