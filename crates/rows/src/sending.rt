ghost use Rattle.std.specs.Prelude.{◌≡◌};
ghost use Rattle.rows.specs.Letters.{Sends};

use crate::letter::{Letter, Mark};
use crate::refusal::Refusal;

// Sends the letter to each of the nodes 0 to n - 1: it takes the n places behind the used ones, in turn.
// Refused: 12 there are fewer than n such places.
pub fn post(tray: &mut [Letter], used: usize, n: u8, letter: Letter) -> Result<(), Refusal>
    ensures { Sends tray.old used n letter result tray.new }
{
    if used > tray.len() || tray.len() - used < usize::from(n) {
        return Err(Refusal::TrayFull);
    }
    // Stays by index: with (0..n).zip(tray[used..].iter_mut()) it stayed open that the places given out so far, written
    // back, are `sent`.
    for i in 0..n {
        tray[used + usize::from(i)] = Letter {
            receiver: i,
            mark: Mark::Travelling.into(),
            ..letter
        };
    }
    Ok(())
}
