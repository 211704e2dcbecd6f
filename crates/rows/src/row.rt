ghost use Rattle.std.specs.Prelude.{◌≡◌};
ghost use Rattle.rows.specs.Rows.{at_stage, new_row, undelivered, with_pending};
ghost use Rattle.rows.specs.Rows.{closed_phase, proposed_phase, with_closed};
ghost use Rattle.rows.specs.Receipts.{is_proposed};

use crate::mask::without;

// A node gathers messages and acknowledgements until it finds a conflict; then it closes its stage, and once it keeps
// enough checks it proposes, and waits for the decision.
#[derive(Clone, Copy, Debug, PartialEq, Eq)]
pub enum Phase {
    Gathering,
    Closing,
    Waiting,
    // it gathers, and has proposed ahead of closing: no step of a ring leads here
    Ahead,
}

impl Phase {
    // Whether a node in it has proposed in its stage.
    pub fn has_proposed(self) -> bool
        ensures { result ≡ is_proposed self }
    {
        matches!(self, Phase::Waiting | Phase::Ahead)
    }

    // The phase after closing: whoever has proposed has still proposed.
    pub(crate) fn closed(self) -> Phase
        ensures { result ≡ closed_phase self }
    {
        match self {
            Phase::Gathering | Phase::Closing => Phase::Closing,
            Phase::Waiting | Phase::Ahead => Phase::Waiting,
        }
    }

    // The phase after proposing: whoever gathers goes on gathering.
    pub(crate) fn proposed(self) -> Phase
        ensures { result ≡ proposed_phase self }
    {
        match self {
            Phase::Gathering | Phase::Ahead => Phase::Ahead,
            Phase::Closing | Phase::Waiting => Phase::Waiting,
        }
    }
}

// A check that a node keeps: who sent it, and what that node had acknowledged when it closed the stage.
#[derive(Clone, Copy, Default)]
pub struct Check {
    pub sender: u8,
    pub set: u64,
}

// What one node knows. Sets of messages are masks, message m as bit m; sets of nodes likewise.
// Stays masks: these are public fields, and a type of sets around each makes every use longer (mask.rt).
#[derive(Clone, Copy)]
pub struct Row {
    // the stage that it is in, from 1 on
    pub stage: u32,
    // every message that reached it
    pub received: u64,
    // the messages delivered in earlier stages
    pub delivered: u64,
    // what it acknowledged in this stage
    pub pending: u64,
    // what it delivered in this stage, ahead of any decision
    pub early: u64,
    // for each message, the nodes heard acknowledging it in this stage
    pub heard: [u8; 64],
    // the checks of this stage that it keeps: the first `checked` of these
    // Stays an array with a count beside it: there is no heap, and a row is copied whole
    pub checks: [Check; 7],
    pub checked: u8,
    pub phase: Phase,
}

impl Row {
    // A row at the beginning of a stage.
    pub(crate) fn at_stage(stage: u32, received: u64, delivered: u64) -> Row
        ensures { result ≡ at_stage stage received delivered }
    {
        Row {
            stage,
            received,
            delivered,
            pending: 0,
            early: 0,
            heard: [0; 64],
            checks: [Check::default(); 7],
            checked: 0,
            phase: Phase::Gathering,
        }
    }

    // The row of a node at the start.
    pub fn new() -> Row
        ensures { result ≡ new_row }
    {
        Row::at_stage(1, 0, 0)
    }

    // The messages that it received and has not delivered in an earlier stage.
    pub fn undelivered(&self) -> u64
        ensures { result ≡ undelivered self.now }
    {
        without(self.received, self.delivered)
    }

    // Notes that all its undelivered messages were acknowledged.
    pub fn acknowledge(&mut self)
        ensures { self.new ≡ with_pending (undelivered self.old) self.old }
    {
        self.pending = self.undelivered();
    }

    // Closes the stage.
    pub fn close(&mut self)
        ensures { self.new ≡ with_closed self.old }
    {
        self.phase = self.phase.closed();
    }
}
