ghost use Rattle.std.specs.Prelude.{◌≡◌, pos, ◌-ℤ◌};
ghost use Rattle.schedule.specs.Commands.{command_at};

use crate::fault::CommandFault;
use crate::reader::Reader;
use record::command::Command;

// The amount that is written as a number from 0 on.
fn amount_of(raised: u16) -> i16
    ensures { result ≡ pos raised -ℤ pos 32768 }
{
    i16::MIN.saturating_add_unsigned(raised)
}

impl<'a> Reader<'a> {
    // The command that takes up all the bytes from the place on.
    pub(crate) fn command(mut self) -> Result<Command, CommandFault>
        ensures { result ≡ command_at self.entry.bytes.now self.entry.place }
    {
        let verb = self.byte()?;
        let subject = self.number(u16::MAX)?;
        let day = self.number(u16::MAX)?;
        let raised = self.number(u16::MAX)?;
        if !self.is_done() {
            return Err(CommandFault::BytesLeft { place: self.place });
        }
        Ok(Command {
            verb,
            subject,
            day,
            amount: amount_of(raised),
        })
    }
}
