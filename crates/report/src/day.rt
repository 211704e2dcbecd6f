ghost use Rattle.std.specs.Prelude.{◌≡◌, ℕ, ◌<◌, ◌++◌, IfOk, None, string_bytes};
ghost use Rattle.ring.specs.World.{world};
ghost use Rattle.ring.specs.Show.{show_refusal};
ghost use Rattle.report.specs.Lines.{nodes_text, counts_text, ended};
ghost use Rattle.report.specs.Reports.{Printed};

use crate::lines::{counts_line, fault_line, start_line};
use crate::sheets::node_lines;
use chooser::chooser::Chooser;
use record::command::Command;
use record::record::Record;
use replay::tally::Tally;
use replay::whole_day::run_day;
use ring::ring::Ring;
use rows::letter::Letter;
use rows::size::RingSize;
use schedule::reader::Reader;
use std::alloc::{AllocError, Global};

// The lines of a day that was run: its nodes, its counts, and the fault that ended it, if one did.
fn day_lines(
    heap: Global,
    ring: &Ring,
    tray: &[Letter],
    book: &[Command],
    sheets: &[u8],
    size: RingSize,
    tally: Tally,
) -> Result<String, AllocError>
    requires { (node : ℕ) → node < size.n → show_refusal (world ring.now tray.now book.now sheets.now) node ≡ None }
    ensures { IfOk result (λ s. string_bytes s ≡
        ended (nodes_text (world ring.now tray.now book.now sheets.now) size.n
        ++ counts_text tally.accepted tally.refused) tally.fault) }
{
    let mut text = node_lines(heap, ring, tray, book, sheets, size)?;
    // Stays pushed: the lines come from public functions.
    let counts = counts_line(heap, tally.accepted, tally.refused)?;
    text.push_str(counts.as_str())?;
    if let Some(fault) = tally.fault {
        let line = fault_line(heap, fault)?;
        text.push_str(line.as_str())?;
    }
    Ok(text)
}

// Runs a day on a new ring with a tray of 1,024 places, and answers its lines.
pub fn day_text<R: Record, C: Chooser>(
    heap: Global,
    reader: Reader<'_>,
    size: RingSize,
    chooser: &mut C,
) -> Result<String, AllocError>
    ensures { IfOk result (λ s. Printed R.Record.kind size reader.entry.bytes.now reader.entry.place
        (C.Chooser.meaning chooser.old) (C.Chooser.meaning chooser.new) (string_bytes s)) }
{
    let mut tray = [Letter::default(); 1024];
    let mut book = [Command::default(); 64];
    let mut sheets = [0u8; 448];
    let mut ring = Ring::new();
    match run_day::<R, C>(
        &mut ring,
        &mut tray,
        &mut book,
        &mut sheets,
        chooser,
        size,
        reader,
    ) {
        Ok(tally) => day_lines(heap, &ring, &tray, &book, &sheets, size, tally),
        Err(refusal) => start_line(heap, refusal),
    }
}
