ghost use Rattle.std.specs.Prelude.{◌≡◌, ◌≤◌};
ghost use Rattle.rows.specs.Rows.{on_sheet};
ghost use Rattle.node.specs.States.{sheet_length, Leaves, Shows};

use crate::handover::Retired;
use crate::member::Member;
use crate::tables::MESSAGES;
use rows::refusal::Refusal;

impl Member {
    // The messages on its sheet: those that it delivered, in earlier stages and in this one.
    fn on_sheet(&self) -> u64
        ensures { result ≡ on_sheet self.now.row }
    {
        self.row.delivered | self.row.early
    }

    // How many places of its sheet are used.
    fn sheet_length(&self) -> usize
        ensures length { result ≡ sheet_length self.now }
        ensures fits { result ≤ 64 }
    {
        // Stays a cast: usize has no From of u32.
        self.on_sheet().count_ones() as usize
    }

    // The numbers of the messages that the node delivered, in order: that part of the sheet itself. Refused: 4 the sheet
    // has the wrong size.
    pub(crate) fn show<'s>(&self, sheet: &'s [u8]) -> Result<&'s [u8], Refusal>
        ensures { Shows (λ s. s.now) self.now sheet.now result }
    {
        if sheet.len() != MESSAGES {
            return Err(Refusal::WrongTableSize);
        }
        Ok(&sheet[..self.sheet_length()])
    }

    // What is left of the node once it is ended.
    pub(crate) fn retired(&self) -> Retired
        ensures { Leaves self.now result }
    {
        Retired {
            stage: self.row.stage,
            sheet_length: self.sheet_length(),
        }
    }
}
