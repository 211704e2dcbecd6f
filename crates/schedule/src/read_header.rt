ghost use Rattle.std.specs.Prelude.{◌≡◌, length, IfErr, IfOk, OnErr};
ghost use Rattle.schedule.specs.Numbers.{left_at};
ghost use Rattle.schedule.specs.Headers.{header_at};
ghost use Rattle.schedule.specs.Readings.{Reads};
ghost use Rattle.schedule.specs.Laws.{Between, Bytes, OneHeader};
ghost use Rattle.schedule.specs.Reports.{place_of};

use crate::fault::EntryFault;
use crate::header::Header;
use crate::reader::Reader;

impl<'a> Reader<'a> {
    // The header at the place; a fault may leave the place inside it.
    fn header_ahead(&mut self) -> Result<Header, EntryFault>
        ensures { Reads header_at (left_at result) self.old self.new }
    {
        Ok(Header {
            n: self.number(u16::MAX)?,
            q: self.number(u16::MAX)?,
            chooser: self.kind()?,
            record: self.kind()?,
        })
    }

    // The header at the place, which is then past it; a fault leaves the place where it was.
    // Stays beside entry: what they share is the copy and the write back, around the one call that differs.
    pub fn header(&mut self) -> Result<Header, EntryFault>
        ensures value { left_at result self.new.place ≡
            header_at self.old.bytes.now self.old.place }
        ensures bytes { self.new.bytes ≡ self.old.bytes }
        ensures kept { OnErr result (self.new.place ≡ self.old.place) }
        ensures placed { IfErr result (λ f. Between self.old.place (length self.old.bytes.now) (place_of f)) }
        ensures once { IfOk result (λ h. Bytes self.old.bytes.now →
            OneHeader self.old.bytes.now self.old.place h self.new.place) }
    {
        let mut ahead = *self;
        let header = ahead.header_ahead()?;
        *self = ahead;
        Ok(header)
    }
}
