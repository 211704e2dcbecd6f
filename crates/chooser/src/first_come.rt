ghost use Rattle.chooser.specs.FirstCome.{first_come};
ghost use Rattle.chooser.specs.Ruled.{Fresh};
ghost use Rattle.std.proofs.Common.{arith};

use crate::proposal::Proposal;
use crate::rule::Rule;
use crate::ruled::Ruled;

// First-come: each stage is decided by its first proposal.
pub type FirstCome = Ruled<First>;

// The rule that the first proposal decides.
#[derive(Clone, Copy)]
pub struct First;

impl Rule for First {
    ghost needs = { λ x. 1 };

    ghost picks = { λ x s ps. 0 };

    ghost low = { λ x. omega arith };

    ghost high = { λ x. omega arith };

    ghost within = { λ x s ps h. omega arith };

    fn need(&self) -> u8 {
        1
    }

    fn place(&self, _stage: u32, _first: &[Proposal]) -> usize {
        0
    }
}

impl Ruled<First> {
    // A chooser without proposals.
    pub fn new() -> Self
        ensures { Fresh 1 (first_come result.log) }
    {
        Ruled::by(First)
    }
}
