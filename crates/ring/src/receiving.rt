ghost use Rattle.std.specs.Prelude.{◌≡◌, ◌<◌, Some};
ghost use Rattle.ring.specs.World.{world, Examined};
ghost use Rattle.ring.specs.Receive.{Relays, Receives};

use crate::ring::Ring;
use crate::tables::check_sizes;
use record::command::Command;
use rows::letter::{Letter, Mark};
use rows::refusal::Refusal;
use rows::size::RingSize;

impl Ring {
    // The size of the ring and the letter at a place, as a receipt and a loss need them. Refused: 4 a table has the
    // wrong size; 7 never started; 13 the place is not yet used or beyond the tray; 14 the letter does not travel; 15 it
    // is spoilt.
    pub(crate) fn examine(
        &self,
        tray: &[Letter],
        book: &[Command],
        sheets: &[u8],
        place: usize,
    ) -> Result<(RingSize, Letter), Refusal>
        ensures { Examined (world self.now tray.now book.now sheets.now) place result }
    {
        check_sizes(tray, book, sheets)?;
        let size = self.size.ok_or(Refusal::NotStarted)?;
        if place >= self.used || place >= tray.len() {
            return Err(Refusal::PlaceUnused);
        }
        let letter = tray[place];
        if letter.mark != u8::from(Mark::Travelling) {
            return Err(Refusal::NotTravelling);
        }
        if letter.is_spoilt(size.n, self.messages) {
            return Err(Refusal::SpoiltLetter);
        }
        Ok((size, letter))
    }

    // Stays with the fact on the size, as the step of a gathering node does.

    // Relays a letter in the name of its receiver, if that has to. Refused: 12 fewer free places than nodes.
    fn relay(&mut self, tray: &mut [Letter], size: RingSize, letter: Letter) -> Result<(), Refusal>
        requires started { self.old.size ≡ Some size }
        requires inside { letter.receiver < size.n }
        ensures { Relays self.old tray.old letter result self.new tray.new }
    {
        let row = self.nodes[usize::from(letter.receiver)].row;
        if !row.must_relay(&self.broadcasters, letter) {
            return Ok(());
        }
        self.send(tray, size, Letter::data(letter.receiver, letter.set))?;
        Ok(())
    }

    // Receives the letter at a place: its receiver takes it, and relays a message that is new to it and that it did not
    // broadcast. Refused: 4 a table has the wrong size; 7 never started; 13 the place is not yet used or beyond the
    // tray; 14 the letter does not travel; 15 it is spoilt; 9 the receiver has crashed; 16 the letter's stage is later
    // than the receiver's; 12 it must relay and there are fewer free places than nodes.
    pub fn receive(
        &mut self,
        tray: &mut [Letter],
        book: &[Command],
        sheets: &mut [u8],
        place: usize,
    ) -> Result<(), Refusal>
        ensures { Receives
            (world self.old tray.old book.now sheets.old) place result
            (world self.new tray.new book.now sheets.new) }
    {
        let (size, letter) = self.examine(tray, book, sheets, place)?;
        let receiver = usize::from(letter.receiver);
        if self.nodes[receiver].crashed {
            return Err(Refusal::NodeCrashed);
        }
        if letter.stage > self.nodes[receiver].row.stage {
            return Err(Refusal::LaterStage);
        }
        self.relay(tray, size, letter)?;
        tray[place] = Letter {
            mark: Mark::Taken.into(),
            ..letter
        };
        self.nodes[receiver]
            .row
            .take(size, letter, sheets, letter.receiver);
        Ok(())
    }
}
