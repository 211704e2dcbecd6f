ghost use Rattle.std.specs.Prelude.{◌%◌};
ghost use Rattle.std.proofs.Common.{arith};

use chooser::chooser::Chooser;
use chooser::proposal::Proposal;
use chooser::rule::Rule;
use chooser::ruled::Ruled;

// A rule of another crate: the second proposal is decided.
#[derive(Clone, Copy)]
struct Second;

impl Rule for Second {
    ghost needs = { λ x. 2 };

    ghost picks = { λ x s ps. 1 };

    ghost low = { λ x. omega arith };

    ghost high = { λ x. omega arith };

    ghost within = { λ x s ps h. omega arith };

    fn need(&self) -> u8 {
        2
    }

    fn place(&self, _stage: u32, _first: &[Proposal]) -> usize {
        1
    }
}

// One that looks at the stage: the second proposal is decided in odd stages, and the first in even ones.
#[derive(Clone, Copy)]
struct Alternating;

impl Rule for Alternating {
    ghost needs = { λ x. 2 };

    ghost picks = { λ x s ps. s % 2 };

    ghost low = { λ x. omega arith };

    ghost high = { λ x. omega arith };

    ghost within = { λ x s ps h. omega arith };

    fn need(&self) -> u8 {
        2
    }

    fn place(&self, stage: u32, _first: &[Proposal]) -> usize {
        stage as usize % 2
    }
}

#[test]
fn the_second_proposal_is_decided_and_kept(rt: HostRuntime) {
    let mut chooser = Ruled::by(Second);
    assert_eq!(rt; chooser.need(), 2);
    assert_eq!(rt; chooser.propose(4, 6, (1, 2)), Ok(()));
    assert_eq!(rt; chooser.decision(4), Ok(None));
    assert_eq!(rt; chooser.propose(4, 0, (4, 8)), Ok(()));
    assert_eq!(rt; chooser.decision(4), Ok(Some((4, 8))));
    assert_eq!(rt; chooser.propose(4, 1, (16, 32)), Ok(()));
    assert_eq!(rt; chooser.decision(4), Ok(Some((4, 8))));
    assert_eq!(rt; chooser.count(4), Ok(3));
}

// A rule is asked about the stage that is to be decided.
#[test]
fn each_stage_is_decided_by_its_own_place(rt: HostRuntime) {
    let mut chooser = Ruled::by(Alternating);
    let cases = [(1, (4, 8)), (2, (1, 2)), (31, (4, 8)), (32, (1, 2))];
    for (stage, decided) in cases {
        assert_eq!(rt; chooser.propose(stage, 6, (1, 2)), Ok(()));
        assert_eq!(rt; chooser.decision(stage), Ok(None));
        assert_eq!(rt; chooser.propose(stage, 0, (4, 8)), Ok(()));
        assert_eq!(rt; chooser.decision(stage), Ok(Some(decided)));
    }
}
