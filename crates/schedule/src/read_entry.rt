ghost use Rattle.std.specs.Prelude.{◌≡◌, ◌<◌, length, IfErr, IfOk, OnErr, OnOk};
ghost use Rattle.schedule.specs.Entries.{act_of, body_at, broadcast_at, entry_at, part_at, read_as};
ghost use Rattle.schedule.specs.Laws.{Between, Bytes, OneSpelling};
ghost use Rattle.schedule.specs.Readings.{Reads};
ghost use Rattle.schedule.specs.Reports.{place_of};

use crate::entry::Entry;
use crate::fault::EntryFault;
use crate::kind::EntryKind;
use crate::reader::Reader;
use record::command::Command;

impl<'a> Reader<'a> {
    // The body of so many bytes at the place, and the command that it holds.
    fn body(&mut self, size: u16) -> Result<(Command, &'a [u8]), EntryFault>
        ensures { Reads (body_at size) (part_at result) self.old self.new }
    {
        let bytes = self.bytes;
        let start = self.place;
        let size = usize::from(size);
        if size > bytes.len() - start {
            return Err(EntryFault::BodyTooLong { place: start });
        }
        let end = start + size;
        let inner = Reader {
            bytes: &bytes[..end],
            place: start,
        };
        let command = inner.command()?;
        self.place = end;
        Ok((command, &bytes[start..end]))
    }

    // What follows the kind of a broadcast.
    fn broadcast(&mut self) -> Result<Entry<'a>, EntryFault>
        ensures { Reads broadcast_at (read_as result) self.old self.new }
    {
        let node = self.byte()?;
        let size = self.number(u16::MAX)?;
        let (command, body) = self.body(size)?;
        Ok(Entry::Broadcast {
            node,
            command,
            body,
        })
    }

    // The entry at the place; a fault may leave the place inside it.
    fn entry_ahead(&mut self) -> Result<Entry<'a>, EntryFault>
        ensures { Reads entry_at (read_as result) self.old self.new }
    {
        match self.kind()? {
            EntryKind::Broadcast => self.broadcast(),
            EntryKind::Receive => Ok(Entry::Receive {
                place: self.number(u16::MAX)?,
            }),
            EntryKind::Step => Ok(Entry::Step { node: self.byte()? }),
            EntryKind::Crash => Ok(Entry::Crash { node: self.byte()? }),
            EntryKind::Lose => Ok(Entry::Lose {
                place: self.number(u16::MAX)?,
            }),
        }
    }

    // The entry at the place, which is then past it; a fault leaves the place where it was.
    // Stays beside header: what they share is the copy and the write back, around the one call that differs.
    pub fn entry(&mut self) -> Result<Entry<'a>, EntryFault>
        ensures value { read_as result self.new.place ≡
            entry_at self.old.bytes.now self.old.place }
        ensures bytes { self.new.bytes ≡ self.old.bytes }
        ensures kept { OnErr result (self.new.place ≡ self.old.place) }
        ensures placed { IfErr result (λ f. Between self.old.place (length self.old.bytes.now) (place_of f)) }
        ensures onward { OnOk result (self.old.place < self.new.place) }
        ensures once { IfOk result (λ e. Bytes self.old.bytes.now → OneSpelling
            self.old.bytes.now self.old.place (act_of e) self.new.place) }
    {
        let mut ahead = *self;
        let entry = ahead.entry_ahead()?;
        *self = ahead;
        Ok(entry)
    }
}
