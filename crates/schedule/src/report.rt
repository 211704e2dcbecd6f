ghost use Rattle.std.specs.Prelude.{◌≡◌};
ghost use Rattle.schedule.specs.Reports.{number_of_number, place_of_number, number_of_command, place_of_command};
ghost use Rattle.schedule.specs.Reports.{number_of, place_of, layers_of};

use crate::fault::{CommandFault, EntryFault, NumberFault};

// A layer that a fault passed on its way out.
#[derive(Clone, Copy, Debug, PartialEq)]
pub enum Layer {
    Number,
    Command,
    Entry,
}

impl NumberFault {
    // The number that this fault goes by.
    fn number(&self) -> u8
        ensures { result ≡ number_of_number self.now }
    {
        match self {
            NumberFault::CutShort { .. } => 41,
            NumberFault::Unfit { .. } => 42,
        }
    }

    // Where the number at fault begins.
    fn place(&self) -> usize
        ensures { result ≡ place_of_number self.now }
    {
        match *self {
            NumberFault::CutShort { place } | NumberFault::Unfit { place } => place,
        }
    }
}

impl CommandFault {
    // The number that this fault goes by.
    fn number(&self) -> u8
        ensures { result ≡ number_of_command self.now }
    {
        match self {
            CommandFault::BadNumber(fault) => fault.number(),
            CommandFault::BytesLeft { .. } => 44,
        }
    }

    // Where what is at fault in the command begins.
    fn place(&self) -> usize
        ensures { result ≡ place_of_command self.now }
    {
        match self {
            CommandFault::BadNumber(fault) => fault.place(),
            CommandFault::BytesLeft { place } => *place,
        }
    }
}

impl EntryFault {
    // The number that this fault goes by.
    pub fn number(&self) -> u8
        ensures { result ≡ number_of self.now }
    {
        match self {
            EntryFault::InNumber(fault) => fault.number(),
            EntryFault::InCommand(fault) => fault.number(),
            EntryFault::UnknownKind { .. } => 43,
            EntryFault::BodyTooLong { .. } => 44,
        }
    }

    // The place in the whole input where what is at fault begins.
    pub fn place(&self) -> usize
        ensures { result ≡ place_of self.now }
    {
        match self {
            EntryFault::InNumber(fault) => fault.place(),
            EntryFault::InCommand(fault) => fault.place(),
            EntryFault::UnknownKind { place } | EntryFault::BodyTooLong { place } => *place,
        }
    }

    // The layers that this fault passed, the innermost first.
    pub fn layers(&self) -> &'static [Layer]
        ensures { result.now ≡ layers_of self.now }
    {
        match self {
            EntryFault::InNumber(_) => &[Layer::Number, Layer::Entry],
            EntryFault::InCommand(CommandFault::BadNumber(_)) => &[
                Layer::Number,
                Layer::Command,
                Layer::Entry,
            ],
            EntryFault::InCommand(CommandFault::BytesLeft { .. }) => &[
                Layer::Command,
                Layer::Entry,
            ],
            EntryFault::UnknownKind { .. } | EntryFault::BodyTooLong { .. } => &[Layer::Entry],
        }
    }
}
