ghost use Rattle.std.specs.Prelude.{◌≡◌, IfOk, string_bytes};
ghost use Rattle.listing.specs.Lines.{fault_line};

use crate::layers::Layers;
use schedule::fault::EntryFault;
use std::alloc::{AllocError, Global};

// The line of a fault.
pub fn fault_line(heap: Global, fault: EntryFault) -> Result<String, AllocError>
    ensures { IfOk result (λ s. string_bytes s ≡ fault_line fault) }
{
    let layers = Layers(fault.layers());
    format!(in heap; "{fault} in {layers}\n")
}
