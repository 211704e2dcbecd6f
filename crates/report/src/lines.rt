ghost use Rattle.std.specs.Prelude.{◌≡◌, IfOk, string_bytes};
ghost use Rattle.report.specs.Lines.{long_text, start_text, fault_text, counts_text};

use rows::refusal::Refusal;
use schedule::fault::EntryFault;
use std::alloc::{AllocError, Global};

// The line for too long an input.
pub fn long_line(heap: Global) -> Result<String, AllocError>
    ensures { IfOk result (λ s. string_bytes s ≡ long_text) }
{
    String::from_str(heap, "long\n")
}

// The line of a ring size or a start that was refused.
pub fn start_line(heap: Global, refusal: Refusal) -> Result<String, AllocError>
    ensures { IfOk result (λ s. string_bytes s ≡ start_text refusal) }
{
    let number = refusal.number();
    format!(in heap; "start {number}\n")
}

// The line of a fault.
pub fn fault_line(heap: Global, fault: EntryFault) -> Result<String, AllocError>
    ensures { IfOk result (λ s. string_bytes s ≡ fault_text fault) }
{
    format!(in heap; "{fault}\n")
}

// The line of the counts.
pub fn counts_line(heap: Global, accepted: usize, refused: usize) -> Result<String, AllocError>
    ensures { IfOk result (λ s. string_bytes s ≡ counts_text accepted refused) }
{
    format!(in heap; "accepted {accepted} refused {refused}\n")
}
