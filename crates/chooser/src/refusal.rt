ghost use Rattle.std.specs.Prelude.{◌≡◌};
ghost use Rattle.chooser.specs.Refusal.{number_of};

// Why a chooser turns a call down, with the number that it goes by.
#[derive(Clone, Copy, Debug, PartialEq, Eq)]
pub enum Refusal {
    // the stage is not 1 to 32
    NoSuchStage = 31,
    // the node is above 6
    NoSuchNode = 32,
    // this node has proposed in this stage
    ProposedBefore = 33,
    // the need is 0 or above 7
    NeedOutOfRange = 34,
}

impl Refusal {
    // The number that this refusal goes by.
    pub fn number(self) -> u8
        ensures { result ≡ number_of self }
    {
        self as u8
    }
}
