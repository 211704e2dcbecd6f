ghost use Rattle.node.specs.Tables.{lent_in, StillLent};
ghost use Rattle.std.specs.Prelude.{◌≡◌};
ghost use Rattle.node.specs.Gathers.{nothing_new, Acknowledges, Closes};

use crate::member::Member;
use crate::tables::NodeTables;
use record::record::Record;
use rows::conflict::find_conflict;
use rows::letter::Letter;
use rows::refusal::Refusal;
use rows::sending::post;

impl Member {
    // Whether the node has acknowledged all that it has not delivered.
    fn has_nothing_new(&self) -> bool
        ensures { result ≡ nothing_new self.now }
    {
        self.row.undelivered() & !self.row.pending == 0
    }

    // Sends all that is not delivered as an acknowledgement. Refused: 4 a table has the wrong size; 17 all of it is
    // acknowledged, or two messages of it conflict.
    pub(crate) fn acknowledge<R: Record>(
        &mut self,
        tables: &mut NodeTables<'_>,
    ) -> Result<(), Refusal>
        ensures lent { StillLent tables.old tables.new }
        ensures acknowledges { Acknowledges R.Record.kind.conflicts (lent_in tables.old) self.old result
            (lent_in tables.new) self.new }
    {
        tables.check_sizes(self.size)?;
        let undelivered = self.row.undelivered();
        if self.has_nothing_new() || find_conflict::<R>(tables.book, undelivered).is_some() {
            return Err(Refusal::NothingNew);
        }
        let letter = Letter::acknowledgement(self.number, self.row.stage, undelivered);
        post(tables.letters, 0, self.size.n, letter)?;
        self.row.acknowledge();
        Ok(())
    }

    // Sends what is pending as a check, and closes the stage; the answer is two messages that conflict. Refused: 4; 17
    // all that is not delivered is acknowledged, or no two messages of it conflict.
    pub(crate) fn close<R: Record>(
        &mut self,
        tables: &mut NodeTables<'_>,
    ) -> Result<(u8, u8), Refusal>
        ensures lent { StillLent tables.old tables.new }
        ensures closes { Closes R.Record.kind.conflicts (lent_in tables.old) self.old result
            (lent_in tables.new) self.new }
    {
        tables.check_sizes(self.size)?;
        if self.has_nothing_new() {
            return Err(Refusal::NothingNew);
        }
        let pair = find_conflict::<R>(tables.book, self.row.undelivered()).ok_or(
            Refusal::NothingNew,
        )?;
        let letter = Letter::check(self.number, self.row.stage, self.row.pending);
        post(tables.letters, 0, self.size.n, letter)?;
        self.row.close();
        Ok(pair)
    }
}
