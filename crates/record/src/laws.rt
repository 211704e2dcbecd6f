ghost use Rattle.record.specs.KindsKeepLaws.{ClosingBooksKeepLaws, KittyKeepsLaws, PairsKeepLaws, RoundsKeepLaws};

// The kitty keeps the laws of records: in particular, two payments may be taken in either order.
#[tactic(auto, using(crate::proofs::KindsLaws::kitty))]
pub fn kitty_keeps_laws()
    ensures { KittyKeepsLaws }
{}

// Rounds keep the laws: commands for two players may be taken in either order, and so may two postings of one player.
#[tactic(auto, using(crate::proofs::KindsLaws::rounds))]
pub fn rounds_keep_laws()
    ensures { RoundsKeepLaws }
{}

// A pair keeps the laws if its two sides do, whatever kinds they are.
#[tactic(auto, using(crate::proofs::KindsLaws::pairs))]
pub fn pairs_keep_laws()
    ensures { PairsKeepLaws }
{}

// A closing book keeps the laws if the record below does, whatever its kind.
#[tactic(auto, using(crate::proofs::KindsLaws::closing_books))]
pub fn closing_books_keep_laws()
    ensures { ClosingBooksKeepLaws }
{}
