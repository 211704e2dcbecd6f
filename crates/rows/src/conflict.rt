ghost use Rattle.std.specs.Prelude.{◌≡◌};
ghost use Rattle.rows.specs.Conflicts.{command_of, Found};

use crate::mask::{MOST_MESSAGES, has_bit};
use record::command::Command;
use record::record::Record;

// The command of the message; all zeros where the book has no such place.
pub fn command_of(book: &[Command], m: u8) -> Command
    ensures { result ≡ command_of book.now m }
{
    book.get(usize::from(m)).copied().unwrap_or_default()
}

// Two different messages of the set whose commands conflict, or that there are none.
// Stays two loops left by a label: what is looked for is a pair, and both loops are over when it is found.
pub fn find_conflict<R: Record>(book: &[Command], set: u64) -> Option<(u8, u8)>
    ensures { Found R.Record.kind.conflicts book.now set result }
{
    'search: {
        for i in 0..MOST_MESSAGES {
            for j in 0..i {
                if has_bit(set, i)
                    && has_bit(set, j)
                    && R::in_conflict(command_of(book, i), command_of(book, j))
                {
                    break 'search Some((i, j));
                }
            }
        }
        None
    }
}
