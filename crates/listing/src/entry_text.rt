ghost use Rattle.std.specs.Prelude.{◌≡◌, IfOk, string_bytes};
ghost use Rattle.schedule.specs.Entries.{act_of};
ghost use Rattle.listing.specs.Lines.{act_line};

use schedule::entry::Entry;
use std::alloc::{AllocError, Global};

// The line of an entry.
pub fn entry_line(heap: Global, entry: Entry<'_>) -> Result<String, AllocError>
    ensures { IfOk result (λ s. string_bytes s ≡ act_line (act_of entry.entry)) }
{
    format!(in heap; "{entry}\n")
}
