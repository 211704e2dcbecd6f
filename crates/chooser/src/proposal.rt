ghost use Rattle.std.specs.Prelude.{◌≡◌};
ghost use Rattle.chooser.specs.Meaning.{sets_of};

// What a node proposes for a stage: two sets of messages, message m as bit m of a mask. Those of the first are
// delivered before those of the second.
#[derive(Clone, Copy, Default)]
pub struct Proposal {
    pub node: u8,
    pub nonconflicting: u64,
    pub conflicting: u64,
}

impl Proposal {
    // The pair of its sets.
    pub(crate) fn sets(self) -> (u64, u64)
        ensures { result ≡ sets_of self }
    {
        (self.nonconflicting, self.conflicting)
    }
}
