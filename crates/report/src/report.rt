ghost use Rattle.std.specs.Prelude.{IfOk, Ok, string_bytes};
ghost use Rattle.record.specs.RecordKind.{kind_of};
ghost use Rattle.rows.specs.Size.{Sized, size_refusal};
ghost use Rattle.report.specs.Reports.{Printed, BySize, Reported};

use crate::day::day_text;
use crate::lines::{fault_line, long_line, start_line};
use chooser::chooser::Chooser;
use chooser::first_come::FirstCome;
use chooser::lowest_of::LowestOf;
use record::closing_book::ClosingBook;
use record::kitty::Kitty;
use record::pair::Pair;
use record::record::Record;
use record::rounds::Rounds;
use rows::size::RingSize;
use schedule::header::{ChooserKind, Header, RecordKind};
use schedule::reader::Reader;
use std::alloc::{AllocError, Global};

// The most bytes that a day may have.
pub const MOST_BYTES: usize = 4096;

// Stays four parameters and more: each of these functions hands on what it has not used.

// The text of a day with this chooser, by its kind of record.
fn with_chooser<C: Chooser>(
    heap: Global,
    reader: Reader<'_>,
    kind: RecordKind,
    size: RingSize,
    chooser: &mut C,
) -> Result<String, AllocError>
    ensures { IfOk result (λ s. Printed (kind_of kind) size reader.entry.bytes.now reader.entry.place
        (C.Chooser.meaning chooser.old) (C.Chooser.meaning chooser.new) (string_bytes s)) }
{
    // Stays a match: each arm is another type.
    match kind {
        RecordKind::Kitty => day_text::<Kitty, C>(heap, reader, size, chooser),
        RecordKind::Rounds => day_text::<Rounds, C>(heap, reader, size, chooser),
        RecordKind::Both => {
            day_text::<Pair<Kitty, ClosingBook<Rounds>>, C>(heap, reader, size, chooser)
        }
    }
}

// The text of a day of this size, by its kind of chooser.
fn with_size(
    heap: Global,
    reader: Reader<'_>,
    header: Header,
    size: RingSize,
) -> Result<String, AllocError>
    requires { Sized header.n header.q (Ok size) }
    ensures { IfOk result (λ s. BySize (size_refusal header.n header.q) header reader.entry.bytes.now
        reader.entry.place (string_bytes s)) }
{
    // Stays a match: each arm is another type.
    match header.chooser {
        ChooserKind::FirstCome => {
            let mut chooser = FirstCome::new();
            with_chooser(heap, reader, header.record, size, &mut chooser)
        }
        ChooserKind::LowestOf => {
            let Ok(mut chooser) = LowestOf::new(size.q) else {
                unreachable!();
            };
            with_chooser(heap, reader, header.record, size, &mut chooser)
        }
    }
}

// The text of a day, by its header.
fn with_header(heap: Global, reader: Reader<'_>, header: Header) -> Result<String, AllocError>
    ensures { IfOk result (λ s. BySize (size_refusal header.n header.q) header reader.entry.bytes.now
        reader.entry.place (string_bytes s)) }
{
    match RingSize::new(header.n, header.q) {
        Ok(size) => with_size(heap, reader, header, size),
        Err(refusal) => start_line(heap, refusal),
    }
}

// What the program `day` prints for its input: a header, and then the entries of a schedule.
pub fn report_of(heap: Global, bytes: &[u8]) -> Result<String, AllocError>
    ensures { IfOk result (λ s. Reported bytes.now (string_bytes s)) }
{
    if bytes.len() > MOST_BYTES {
        return long_line(heap);
    }
    let mut reader = Reader::new(bytes);
    match reader.header() {
        Ok(header) => with_header(heap, reader, header),
        Err(fault) => fault_line(heap, fault),
    }
}
