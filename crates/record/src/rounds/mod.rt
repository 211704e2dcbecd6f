// Rounds: the golf rounds that count for eight players' handicaps.
mod adjust;
pub mod card;
pub mod laws;
mod order;
mod post;
pub mod record;
mod tell;

ghost use Rattle.std.specs.Prelude.{◌≡◌, length};

use card::Card;

// Rounds: the golf rounds that are kept of eight players, one card for each.
#[derive(Drop)]
pub struct Rounds {
    cards: [Card; 8],
    ghost eight: { length cards ≡ 8 },
}
