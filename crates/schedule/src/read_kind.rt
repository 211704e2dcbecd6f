ghost use Rattle.schedule.specs.Numbers.{left_at};
ghost use Rattle.schedule.specs.Kinds.{kind_at};
ghost use Rattle.schedule.specs.Readings.{Reads};

use crate::fault::EntryFault;
use crate::kind::Kind;
use crate::reader::Reader;

impl<'a> Reader<'a> {
    // The kind whose number stands at the place.
    pub(crate) fn kind<K: Kind>(&mut self) -> Result<K, EntryFault>
        ensures { Reads (kind_at K.tried) (left_at result) self.old self.new }
    {
        let place = self.place;
        let number = self.number(255)?;
        K::try_from(number).map_err(|_| EntryFault::UnknownKind { place })
    }
}
