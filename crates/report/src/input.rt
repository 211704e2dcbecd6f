ghost use Rattle.std.specs.Prelude.{◌≡◌, ◌+◌, IfOk, IfSome, take, string_bytes};
ghost use Rattle.report.specs.Reports.{Reported};

use crate::report::{MOST_BYTES, report_of};
use std::alloc::Global;
use std::io;
use std::io::Read;

// The first bytes of an input: all of it, or, where it is longer than a day may be, one byte more than a day may have.
fn first_bytes<R: Read + Drop>(heap: Global, input: R) -> io::Result<Vec<u8>>
    ensures { IfOk result (λ v. IfSome (R.remaining input) (λ bytes. v.items ≡ take (MOST_BYTES + 1) bytes)) }
{
    let mut bytes = Vec::new(heap);
    input.take(MOST_BYTES as u64 + 1).read_to_end(&mut bytes)?;
    Ok(bytes)
}

// What the program `day` prints for an input, of which no more is read than the text depends on.
pub fn report_from<R: Read + Drop>(heap: Global, input: R) -> io::Result<String>
    ensures { IfOk result (λ s. IfSome (R.remaining input) (λ bytes. Reported bytes (string_bytes s))) }
{
    let bytes = first_bytes(heap, input)?;
    let text = report_of(heap, bytes.as_slice())?;
    Ok(text)
}
