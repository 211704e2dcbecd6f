ghost use Rattle.std.specs.Prelude.{◌≤◌, IfOk};
ghost use Rattle.schedule.specs.Numbers.{number_at, left_at};
ghost use Rattle.schedule.specs.Readings.{Reads};

use crate::fault::NumberFault;
use crate::numbers::{has_end, is_fit, short_number};
use crate::reader::Reader;

impl<'a> Reader<'a> {
    // The number at the place, up to a limit; the place is then past it.
    pub(crate) fn number(&mut self, limit: u16) -> Result<u16, NumberFault>
        ensures value { Reads (number_at limit) (left_at result) self.old self.new }
        ensures limit { IfOk result (λ v. v ≤ limit) }
    {
        let place = self.place;
        let rest = &self.bytes[place..];
        let Some((value, size)) = short_number(rest) else {
            return Err(if has_end(rest) {
                NumberFault::Unfit { place }
            } else {
                NumberFault::CutShort { place }
            });
        };
        if !is_fit(rest, value, size, limit) {
            return Err(NumberFault::Unfit { place });
        }
        self.place = place + size;
        Ok(value as u16)
    }

    // The number at the place, up to 255.
    pub(crate) fn byte(&mut self) -> Result<u8, NumberFault>
        ensures { Reads (number_at 255) (left_at result) self.old self.new }
    {
        let value = self.number(255)?;
        Ok(value as u8)
    }
}
