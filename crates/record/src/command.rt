ghost use Rattle.std.specs.Prelude.{◌≡◌};
ghost use Rattle.record.specs.Command.{number_of};

// One order to a record: four plain numbers, whose sense is the record's.
#[derive(Clone, Copy, Debug, Default, PartialEq, Eq)]
pub struct Command {
    pub verb: u8,
    pub subject: u16,
    pub day: u16,
    pub amount: i16,
}

// The refusal of a command that is unlawful for the record.
#[derive(Clone, Copy, Debug, PartialEq, Eq)]
pub struct Unlawful;

impl Unlawful {
    // The number that this refusal goes by.
    pub fn number(self) -> u8
        ensures { result ≡ number_of self }
    {
        10
    }
}
