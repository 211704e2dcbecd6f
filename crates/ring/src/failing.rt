ghost use Rattle.ring.specs.World.{world};
ghost use Rattle.ring.specs.Fail.{Crashes, Loses};

use crate::ring::Ring;
use record::command::Command;
use rows::letter::{Letter, Mark};
use rows::refusal::Refusal;

impl Ring {
    // Crashes a node for good. Refused: 7 never started; 8 no such node; 9 it has crashed.
    pub fn crash(&mut self, node: u8) -> Result<(), Refusal>
        ensures { Crashes self.old node result self.new }
    {
        self.with_live_node(node)?;
        self.nodes[usize::from(node)].crashed = true;
        Ok(())
    }

    // Loses a letter of a crashed sender, or to a crashed receiver. Refused: 4 a table has the wrong size; 7 never
    // started; 13 the place is not yet used or beyond the tray; 14 the letter does not travel; 15 it is spoilt; 21
    // neither its sender nor its receiver has crashed.
    pub fn lose(
        &mut self,
        tray: &mut [Letter],
        book: &[Command],
        sheets: &[u8],
        place: usize,
    ) -> Result<(), Refusal>
        ensures { Loses
            (world self.old tray.old book.now sheets.now) place result
            (world self.new tray.new book.now sheets.now) }
    {
        let (_, letter) = self.examine(tray, book, sheets, place)?;
        if !self.nodes[usize::from(letter.sender)].crashed
            && !self.nodes[usize::from(letter.receiver)].crashed
        {
            return Err(Refusal::NobodyCrashed);
        }
        tray[place].mark = Mark::Lost.into();
        Ok(())
    }
}
