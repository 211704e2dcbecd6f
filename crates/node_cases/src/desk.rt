use chooser::lowest_of::LowestOf;
use node::tables::NodeTables;
use record::command::Command;
use rows::letter::Letter;
use rows::refusal::Refusal;
use std::test::Fail;

// Which of the tables is lent in a wrong size, if one is.
#[derive(Clone, Copy)]
pub(crate) enum Sizes {
    Right,
    ShortBook,
    ShortBroadcasters,
    ShortLetters,
    LongLetters,
    ShortSheet,
}

// The wrong sizes.
pub(crate) const WRONG: [Sizes; 5] = [
    Sizes::ShortBook,
    Sizes::ShortBroadcasters,
    Sizes::ShortLetters,
    Sizes::LongLetters,
    Sizes::ShortSheet,
];

// The tables of node 1 in a ring of four, and the chooser.
#[derive(Drop)]
pub(crate) struct Desk {
    pub(crate) book: [Command; 64],
    pub(crate) broadcasters: [u8; 64],
    // one more than nodes, so that too many can be lent
    pub(crate) letters: [Letter; 5],
    pub(crate) sheet: [u8; 64],
    pub(crate) sizes: Sizes,
    // the two messages that the last closing named
    pub(crate) pair: (u8, u8),
    pub(crate) chooser: LowestOf,
}

// A payment, which conflicts with draws only.
pub(crate) const PAY: Command = Command {
    verb: 1,
    subject: 0,
    day: 0,
    amount: 50,
};

// A draw, which conflicts with every lawful command.
pub(crate) const DRAW: Command = Command {
    verb: 2,
    subject: 0,
    day: 0,
    amount: 50,
};

// The number of a refusal, and 0 for an accepted call.
// Stays a number: the tables of calls and numbers read 0 for an accepted call.
pub(crate) fn number_of<T: Drop>(answer: Result<T, Refusal>) -> u8 {
    match answer {
        Ok(_) => 0,
        Err(refusal) => refusal.number(),
    }
}

impl Desk {
    // With three messages: 0 of node 0, 1 of node 1 itself, 2 of node 3; and a chooser of this need.
    pub(crate) fn new(commands: [Command; 3], need: u8) -> Result<Desk, Fail> {
        let mut book = [Command::default(); 64];
        book[0] = commands[0];
        book[1] = commands[1];
        book[2] = commands[2];
        let mut broadcasters = [255; 64];
        broadcasters[0] = 0;
        broadcasters[1] = 1;
        broadcasters[2] = 3;
        Ok(Desk {
            book,
            broadcasters,
            letters: [Letter::default(); 5],
            sheet: [7; 64],
            sizes: Sizes::Right,
            pair: (0, 0),
            chooser: LowestOf::new(need)?,
        })
    }
}

// Tables of these parts.
fn of_parts<'a>(
    book: &'a [Command],
    broadcasters: &'a [u8],
    letters: &'a mut [Letter],
    sheet: &'a mut [u8],
) -> NodeTables<'a> {
    NodeTables {
        book,
        broadcasters,
        letters,
        sheet,
    }
}

// The tables, lent in the sizes that the desk says.
pub(crate) fn lend<'a>(
    sizes: Sizes,
    book: &'a [Command; 64],
    broadcasters: &'a [u8; 64],
    letters: &'a mut [Letter; 5],
    sheet: &'a mut [u8; 64],
) -> NodeTables<'a> {
    match sizes {
        Sizes::Right => of_parts(book, broadcasters, &mut letters[..4], sheet),
        Sizes::ShortBook => of_parts(&book[1..], broadcasters, &mut letters[..4], sheet),
        Sizes::ShortBroadcasters => of_parts(book, &broadcasters[1..], &mut letters[..4], sheet),
        Sizes::ShortLetters => of_parts(book, broadcasters, &mut letters[..3], sheet),
        Sizes::LongLetters => of_parts(book, broadcasters, letters, sheet),
        Sizes::ShortSheet => of_parts(book, broadcasters, &mut letters[..4], &mut sheet[1..]),
    }
}
