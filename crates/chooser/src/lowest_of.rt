ghost use Rattle.std.specs.Prelude.{◌≡◌, ◌≤◌};
ghost use Rattle.chooser.specs.LowestOf.{lowest, lowest_of};
ghost use Rattle.chooser.specs.Ruled.{Makes};
ghost use Rattle.chooser.specs.Rules.{lowest_within};

use crate::proposal::Proposal;
use crate::refusal::Refusal;
use crate::rule::Rule;
use crate::ruled::Ruled;

const HIGHEST_NEED: u8 = 7;

// Lowest-of: each stage is decided by the proposal of the lowest node among its first `need`.
pub type LowestOf = Ruled<Lowest>;

// The rule that the lowest node of the first `need` decides.
#[derive(Clone, Copy)]
pub struct Lowest {
    need: u8,
    ghost low: { 1 ≤ need },
    ghost high: { need ≤ 7 },
}

// The place of the proposal whose node is the lowest.
// Stays: tried with min_by_key by the pair of node and place; it stayed open that a place whose pair no other's is
// below is the one that `lowest` gives.
#[tactic(auto, using(crate::specs::Rules::lowest_next, crate::specs::Rules::lowest_end))]
fn lowest_place(proposals: &[Proposal]) -> usize
    ensures { result ≡ lowest proposals.now }
{
    let mut best = 0;
    let mut node = 7;
    for (i, proposal) in proposals.iter().enumerate() {
        if proposal.node < node {
            best = i;
            node = proposal.node;
        }
    }
    best
}

impl Rule for Lowest {
    ghost needs = { λ x. x.need };

    ghost picks = { λ x s ps. lowest ps };

    ghost low = { λ x. x.low };

    ghost high = { λ x. x.high };

    ghost within = { λ x. lowest_within x.need x.low };

    fn need(&self) -> u8 {
        self.need
    }

    fn place(&self, _stage: u32, first: &[Proposal]) -> usize {
        lowest_place(first)
    }
}

impl Ruled<Lowest> {
    // A chooser with this need and without proposals. Refused: 34 the need is 0 or above 7.
    pub fn new(need: u8) -> Result<Self, Refusal>
        ensures { Makes (λ x. lowest_of x.rule.need x.log) need result }
    {
        if !(1..=HIGHEST_NEED).contains(&need) {
            return Err(Refusal::NeedOutOfRange);
        }
        Ok(Ruled::by(Lowest { need }))
    }
}
