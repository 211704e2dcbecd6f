// What a step of a node did.
#[derive(Clone, Copy, Debug, PartialEq, Eq)]
pub enum Step {
    // it acknowledged to all what it had not delivered
    Acknowledged,
    // it closed its stage over these two messages, which conflict
    Closed(u8, u8),
    // it proposed to the chooser
    Proposed,
    // it settled its stage by the decision
    Settled,
}
