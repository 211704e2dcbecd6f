use rows::letter::Letter;

// Data to node 1.
pub(crate) fn data(sender: u8, set: u64) -> Letter {
    Letter {
        sender,
        receiver: 1,
        kind: 1,
        mark: 1,
        stage: 0,
        set,
    }
}

// An acknowledgement to node 1.
pub(crate) fn acknowledgement(sender: u8, stage: u32, set: u64) -> Letter {
    Letter {
        sender,
        receiver: 1,
        kind: 2,
        mark: 1,
        stage,
        set,
    }
}

// A check to node 1.
pub(crate) fn check(sender: u8, stage: u32, set: u64) -> Letter {
    Letter {
        sender,
        receiver: 1,
        kind: 3,
        mark: 1,
        stage,
        set,
    }
}

// The letter with another mark.
pub(crate) fn marked(mark: u8, letter: Letter) -> Letter {
    Letter { mark, ..letter }
}

// The letter as one of another kind.
pub(crate) fn of_kind(kind: u8, letter: Letter) -> Letter {
    Letter { kind, ..letter }
}

// The letter from another node.
pub(crate) fn sent_by(sender: u8, letter: Letter) -> Letter {
    Letter { sender, ..letter }
}

// The letter to another node.
pub(crate) fn sent_to(receiver: u8, letter: Letter) -> Letter {
    Letter { receiver, ..letter }
}

// The letter in another stage.
pub(crate) fn at_stage(stage: u32, letter: Letter) -> Letter {
    Letter { stage, ..letter }
}

// The letter with other messages.
pub(crate) fn with_set(set: u64, letter: Letter) -> Letter {
    Letter { set, ..letter }
}
