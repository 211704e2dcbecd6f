ghost use Rattle.std.specs.Prelude.{◌≡◌, ◌-◌, length};
ghost use Rattle.std.specs.Iterator.{at_most};

use crate::entry::Entry;
use crate::fault::EntryFault;
use crate::reader::Reader;

// The entries that a reader has ahead, each read when it is asked for; they end with the bytes, or with a fault.
#[derive(Drop)]
pub struct Entries<'a> {
    reader: Reader<'a>,
}

impl<'a> Reader<'a> {
    // The entries ahead.
    pub fn entries(self) -> Entries<'a>
        ensures { result.reader ≡ self.entry }
    {
        Entries { reader: self }
    }
}

impl<'a> Iterator for Entries<'a> {
    ghost use Rattle.schedule.specs.Readings.{NextEntry};

    type Item = Result<Entry<'a>, EntryFault>;

    ghost next_gives = { λ s r t. NextEntry s.reader r t.reader };

    ghost remaining = { λ s. at_most (length s.reader.bytes.now - s.reader.place) };

    fn next(&mut self) -> Option<Result<Entry<'a>, EntryFault>> {
        if self.reader.is_done() {
            return None;
        }
        let read = self.reader.entry();
        if read.is_err() {
            self.reader.place = self.reader.bytes.len();
        }
        Some(read)
    }
}
