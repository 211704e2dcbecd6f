ghost use Rattle.std.specs.Prelude.{◌≡◌, ◌≤◌, true, length, take};
ghost use Rattle.chooser.specs.Arrivals.{apart};

use crate::proposal::Proposal;
use crate::refusal::Refusal;

const HIGHEST_NODE: u8 = 6;

// The proposals of one stage, which are the first `count`, in order of arrival. Each node proposes once.
// Stays: an array with a count, since proposing never allocates and a fixed vector of another crate is more to trust.
#[derive(Clone, Copy)]
pub struct Stage {
    pub count: usize,
    pub proposals: [Proposal; 7],
    ghost places: { length proposals ≡ 7 },
    ghost within: { count ≤ 7 },
    ghost each_once: { apart 7 (take count proposals) ≡ true },
}

impl Stage {
    ghost use Rattle.std.specs.Prelude.{[]};
    ghost use Rattle.chooser.specs.Meaning.{has_proposed};
    ghost use Rattle.chooser.specs.Table.{arrived, Adds};

    // A stage without proposals.
    pub(crate) fn new() -> Self
        ensures { arrived result ≡ [] }
    {
        Stage {
            count: 0,
            proposals: [Proposal::default(); 7],
        }
    }

    // The proposals that it has.
    pub(crate) fn proposals(&self) -> &[Proposal]
        ensures { result.now ≡ arrived self.now }
    {
        &self.proposals[..self.count]
    }

    // Whether one of them is the node's.
    fn has(&self, node: u8) -> bool
        ensures { result ≡ has_proposed node (arrived self.now) }
    {
        self.proposals().iter().any(|earlier| earlier.node == node)
    }

    // Takes a proposal after those that it has.
    pub(crate) fn add(&mut self, proposal: Proposal) -> Result<(), Refusal>
        ensures { Adds self.old proposal result self.new }
    {
        if proposal.node > HIGHEST_NODE {
            return Err(Refusal::NoSuchNode);
        }
        if self.has(proposal.node) {
            return Err(Refusal::ProposedBefore);
        }
        self.proposals[self.count] = proposal;
        self.count += 1;
        Ok(())
    }
}
