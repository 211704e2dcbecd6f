ghost use Rattle.std.specs.Prelude.{◌≡◌};
ghost use Rattle.schedule_write.specs.Outcomes.{number_of};

// Why a draft is not written, with the number that each reason goes by.
#[derive(Clone, Copy, Debug, PartialEq)]
pub enum WriteRefusal {
    NumberAboveLimit = 42,
    BufferTooShort = 46,
}

impl WriteRefusal {
    // The number that this refusal goes by.
    pub fn number(self) -> u8
        ensures { result ≡ number_of self }
    {
        self as u8
    }
}
