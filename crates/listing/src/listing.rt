ghost use Rattle.std.specs.Prelude.{◌≡◌, IfOk, string_bytes};
ghost use Rattle.listing.specs.Lines.{listing_of};

use crate::entry_text::entry_line;
use crate::fault_text::fault_line;
use schedule::reader::Reader;
use std::alloc::{AllocError, Global};

// The lines of all entries, up to the end or a fault, which has the last line.
pub fn listing_of(heap: Global, bytes: &[u8]) -> Result<String, AllocError>
    ensures { IfOk result (λ s. string_bytes s ≡ listing_of bytes.now) }
{
    let mut text = String::new(heap);
    for read in Reader::new(bytes).entries() {
        let line = match read {
            Ok(entry) => entry_line(heap, entry)?,
            Err(fault) => fault_line(heap, fault)?,
        };
        text.push_str(line.as_str())?;
    }
    Ok(text)
}
