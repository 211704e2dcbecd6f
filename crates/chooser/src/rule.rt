ghost use Rattle.std.specs.Prelude.{◌≡◌, ℕ, ◌<◌, ◌≤◌, List, length, take};
ghost use Rattle.chooser.specs.declared.proposal.Proposal.{Proposal};

use crate::proposal::Proposal;

// A rule: how many proposals settle a stage, and which of the first so many is decided. It may go by the stage.
pub trait Rule {
    // the need, and for a stage the place of the decided one among its first so many
    ghost needs: { Self → ℕ };

    ghost picks: { Self → ℕ → List Proposal → ℕ };

    // How many proposals a decision takes.
    fn need(&self) -> u8
        ensures { result ≡ needs self.now };

    // The place of the decided one among these, the first proposals of the stage.
    fn place(&self, stage: u32, first: &[Proposal]) -> usize
        ensures { result ≡ picks self.now stage first.now };

    // a need of 1 to 7, and in every stage a place among the first so many
    ghost low: { (x : Self) → 1 ≤ needs x };

    ghost high: { (x : Self) → needs x ≤ 7 };

    ghost within: { (x : Self) (s : ℕ) (ps : List Proposal) → needs x ≤ length ps → picks x s (take (needs x) ps) < needs x };
}
