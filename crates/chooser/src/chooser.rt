ghost use Rattle.std.specs.Prelude.{◌≡◌, ℕ, length};
ghost use Rattle.chooser.specs.Meaning.{Meaning, Sound, asked, Proposes};

use crate::refusal::Refusal;

// A chooser: consensus for each of the stages 1 to 32 among the nodes 0 to 6. It decides one of the first proposals
// of a stage as soon as there are enough of them.
pub trait Chooser {
    // the need, the proposals of each stage, and each stage's decision
    ghost meaning: { Self → Meaning };

    // How many proposals a decision takes, 1 to 7.
    fn need(&self) -> u8
        ensures { result ≡ (meaning self.now).need };

    // How many proposals the stage has. Refused: 31 the stage is not 1 to 32.
    fn count(&self, stage: u32) -> Result<usize, Refusal>
        ensures { result ≡ asked stage (length ((meaning self.now).proposals stage)) };

    // The decided pair of message sets, or that there is none. Refused: 31 the stage is not 1 to 32.
    fn decision(&self, stage: u32) -> Result<Option<(u64, u64)>, Refusal>
        ensures { result ≡ asked stage ((meaning self.now).decision stage) };

    // Appends the node's proposal to the stage. Refused: 31 the stage is not 1 to 32; 32 the node is above 6; 33 it has
    // proposed in this stage.
    fn propose(&mut self, stage: u32, node: u8, sets: (u64, u64)) -> Result<(), Refusal>
        ensures { Proposes (meaning self.old) stage node sets result (meaning self.new) };

    ghost sound: { (x : Self) → Sound (meaning x) };
}
