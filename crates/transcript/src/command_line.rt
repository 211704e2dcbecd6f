ghost use Rattle.std.specs.Prelude.{◌≡◌};
ghost use Rattle.transcript.specs.CommandLine.{command_from, command_of, choice_of};

use crate::numbers::{integer, natural};
use crate::words::Words;
use record::command::Command;
use record::record_kind::RecordKind;

// The command of four words, if each writes a number that fits.
fn command_from(verb: &[u8], subject: &[u8], day: &[u8], amount: &[u8]) -> Option<Command>
    ensures { result ≡
        command_from verb.now subject.now day.now amount.now }
{
    Some(Command {
        verb: natural(verb, 255)? as u8,
        subject: natural(subject, u16::MAX)?,
        day: natural(day, u16::MAX)?,
        amount: integer(amount)?,
    })
}

// The command that a line gives: exactly four words, each a number that fits.
pub(crate) fn command_of(line: &[u8]) -> Option<Command>
    ensures { result ≡ command_of line.now }
{
    let mut words = Words(line);
    let verb = words.next()?;
    let subject = words.next()?;
    let day = words.next()?;
    let amount = words.next()?;
    match words.next() {
        None => command_from(verb, subject, day, amount),
        Some(_) => None,
    }
}

// The choice that a line gives: exactly one word, which writes 1, 2 or 3.
pub(crate) fn choice_of(line: &[u8]) -> Option<RecordKind>
    ensures { result ≡ choice_of line.now }
{
    let mut words = Words(line);
    let word = words.next()?;
    match words.next() {
        None => RecordKind::try_from(natural(word, 255)?).ok(),
        Some(_) => None,
    }
}
