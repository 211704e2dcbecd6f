ghost use Rattle.std.specs.Prelude.{◌≡◌, ℕ, ◌-◌, [], length};
ghost use Rattle.chooser.specs.Log.{logged, Reads, Appends};
ghost use Rattle.chooser.specs.Meaning.{asked};

use super::Log;
use super::stage::Stage;
use crate::proposal::Proposal;
use crate::refusal::Refusal;

const STAGES: u8 = 32;

// Where a stage stands in the log.
fn place_of(stage: u32) -> Result<usize, Refusal>
    ensures { result ≡ asked stage (stage - 1) }
{
    match u8::try_from(stage) {
        Ok(stage @ 1..=STAGES) => Ok(usize::from(stage) - 1),
        _ => Err(Refusal::NoSuchStage),
    }
}

impl Log {
    // A log without proposals.
    pub(crate) fn new() -> Self
        ensures { (s : ℕ) → logged result s ≡ [] }
    {
        Log {
            stages: [Stage::new(); 32],
        }
    }

    // How many proposals the stage has.
    pub(crate) fn count(&self, stage: u32) -> Result<usize, Refusal>
        ensures { result ≡ asked stage (length (logged self.now stage)) }
    {
        Ok(self.proposals(stage)?.len())
    }

    // The proposals of the stage, in order of arrival.
    pub(crate) fn proposals(&self, stage: u32) -> Result<&[Proposal], Refusal>
        ensures { Reads self.now stage result }
    {
        Ok(self.stages[place_of(stage)?].proposals())
    }

    // Appends the node's proposal to the stage.
    pub(crate) fn propose(&mut self, stage: u32, node: u8, sets: (u64, u64)) -> Result<(), Refusal>
        ensures { Appends self.old stage node sets result self.new }
    {
        let place = place_of(stage)?;
        self.stages[place].add(Proposal {
            node,
            nonconflicting: sets.0,
            conflicting: sets.1,
        })
    }
}
