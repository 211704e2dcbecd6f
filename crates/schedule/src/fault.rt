ghost use Rattle.std.specs.Prelude.{◌≡◌};
ghost use Rattle.schedule.specs.declared.fault.CommandFault.TheVariants.{BadNumber};
ghost use Rattle.schedule.specs.declared.fault.EntryFault.TheVariants.{InNumber, InCommand};

// A number that cannot be read, with the place where it begins: it does not end, or it is too long or above its limit.
#[derive(Clone, Copy, Debug, PartialEq)]
pub enum NumberFault {
    CutShort { place: usize },
    Unfit { place: usize },
}

// A command that cannot be read: one of its numbers, or bytes left after them.
#[derive(Clone, Copy, Debug, PartialEq)]
pub enum CommandFault {
    BadNumber(NumberFault),
    BytesLeft { place: usize },
}

// An entry or a header that cannot be read: one of its numbers, its command, its kind, or a body beyond the input.
#[derive(Clone, Copy, Debug, PartialEq)]
pub enum EntryFault {
    InNumber(NumberFault),
    InCommand(CommandFault),
    UnknownKind { place: usize },
    BodyTooLong { place: usize },
}

// A number of a command at fault is a command at fault.
impl From<NumberFault> for CommandFault {
    ghost from_gives = { λ f r. r ≡ BadNumber f };

    fn from(fault: NumberFault) -> CommandFault {
        CommandFault::BadNumber(fault)
    }
}

// A number of an entry at fault is an entry at fault.
impl From<NumberFault> for EntryFault {
    ghost from_gives = { λ f r. r ≡ InNumber f };

    fn from(fault: NumberFault) -> EntryFault {
        EntryFault::InNumber(fault)
    }
}

// The command of an entry at fault is an entry at fault.
impl From<CommandFault> for EntryFault {
    ghost from_gives = { λ f r. r ≡ InCommand f };

    fn from(fault: CommandFault) -> EntryFault {
        EntryFault::InCommand(fault)
    }
}
