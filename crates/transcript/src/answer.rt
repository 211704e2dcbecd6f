ghost use Rattle.std.specs.Prelude.{Some};
ghost use Rattle.transcript.specs.Playing.{answer_words};

use record::command::Unlawful;
use std::fmt;

// What came of a line: its command was taken or refused, or it has none.
#[derive(Clone, Copy, Debug, PartialEq, Eq)]
pub struct Answer(pub Option<Result<(), Unlawful>>);

// An answer in words.
impl fmt::Display for Answer {
    ghost output = { λ a. Some (answer_words a.0) };

    fn fmt<W: fmt::Write>(&self, f: &mut fmt::Formatter<W>) -> fmt::Result {
        match self.0 {
            Some(Ok(())) => write!(f, "taken"),
            Some(Err(refusal)) => write!(f, "refused {}", refusal.number()),
            None => write!(f, "no command"),
        }
    }
}
