ghost use Rattle.std.specs.Prelude.{◌≡◌};
ghost use Rattle.rows.specs.Letters.{kind_number};
ghost use Rattle.node.specs.Tables.{lent_in, StillLent};
ghost use Rattle.node.specs.Takes.{unheard_of, Passes, Takes};

use crate::member::Member;
use crate::tables::NodeTables;
use rows::letter::{Letter, LetterKind, Mark};
use rows::refusal::Refusal;
use rows::sending::post;

const MOST_MESSAGES: u8 = 64;

// What the table of broadcasters has for a message that nobody has broadcast.
const NOBODY: u8 = 255;

// Whether the set has a message that nobody has broadcast.
fn is_unheard_of(broadcasters: &[u8], set: u64) -> bool
    ensures { result ≡ unheard_of broadcasters.now set }
{
    (0..MOST_MESSAGES).any(|m| (set >> m) % 2 == 1
        && broadcasters.get(usize::from(m)) == Some(&NOBODY))
}

impl Member {
    // Whether the call for letters of the kind takes this letter. Refused: 4 a table has the wrong size; 14 the letter
    // does not travel; 15 it is spoilt, or has a message that nobody has broadcast, or is for another node or of another
    // kind; 16 its stage is later than the node's.
    fn examine(
        &self,
        tables: &NodeTables<'_>,
        kind: LetterKind,
        letter: Letter,
    ) -> Result<(), Refusal>
        ensures { Passes (kind_number kind) (lent_in tables.now) self.now letter result }
    {
        tables.check_sizes(self.size)?;
        if letter.mark != u8::from(Mark::Travelling) {
            return Err(Refusal::NotTravelling);
        }
        if letter.is_spoilt(self.size.n, MOST_MESSAGES)
            || is_unheard_of(tables.broadcasters, letter.set)
            || letter.receiver != self.number
            || letter.kind != u8::from(kind)
        {
            return Err(Refusal::SpoiltLetter);
        }
        if letter.stage > self.row.stage {
            return Err(Refusal::LaterStage);
        }
        Ok(())
    }

    // Takes a letter of the kind, and relays it if it is data that is new to the node and that it did not broadcast.
    pub(crate) fn take(
        &mut self,
        tables: &mut NodeTables<'_>,
        kind: LetterKind,
        letter: Letter,
    ) -> Result<(), Refusal>
        ensures lent { StillLent tables.old tables.new }
        ensures takes { Takes (kind_number kind) (lent_in tables.old) self.old letter result
            (lent_in tables.new) self.new }
        ensures phase { self.new.row.phase ≡ self.old.row.phase }
    {
        self.examine(tables, kind, letter)?;
        if self.row.must_relay(tables.broadcasters, letter) {
            post(
                tables.letters,
                0,
                self.size.n,
                Letter::data(letter.receiver, letter.set),
            )?;
        }
        self.row.take(self.size, letter, tables.sheet, 0);
        Ok(())
    }
}
