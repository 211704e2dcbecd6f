ghost use Rattle.std.specs.Prelude.{◌≡◌, Some};
ghost use Rattle.transcript.specs.Telling.{state_told, state_words};

use std::fmt;

// Whether a book takes commands.
#[derive(Clone, Copy, Debug, PartialEq, Eq)]
pub enum BookState {
    Open,
    Closed,
}

// A book is told as 0 while it is open, and as another number while it is closed.
impl From<u32> for BookState {
    ghost from_gives = { λ number state. state ≡ state_told number };

    fn from(number: u32) -> Self {
        if number == 0 {
            BookState::Open
        } else {
            BookState::Closed
        }
    }
}

impl fmt::Display for BookState {
    ghost output = { λ state. Some (state_words state) };

    fn fmt<W: fmt::Write>(&self, f: &mut fmt::Formatter<W>) -> fmt::Result {
        match self {
            BookState::Open => write!(f, "open"),
            BookState::Closed => write!(f, "closed"),
        }
    }
}
