ghost use Rattle.std.specs.Prelude.{◌≡◌, ℕ, ◌<◌, ◌++◌, IfOk, None, codes, Some, string_bytes};
ghost use Rattle.ring.specs.World.{world};
ghost use Rattle.ring.specs.Show.{show_refusal};
ghost use Rattle.report.specs.Lines.{state_text, report_text, node_text, nodes_text};

use record::command::Command;
use ring::ring::Ring;
use rows::letter::Letter;
use rows::size::RingSize;
use std::alloc::{AllocError, Global};
use std::fmt;

// What is reported of a node: its number, its stage, whether it lives, and the messages on its sheet.
#[derive(Clone, Copy)]
struct NodeReport<'a> {
    node: u8,
    stage: u32,
    live: bool,
    sheet: &'a [u8],
}

// Whether a node lives, in words.
fn state_word(live: bool) -> &'static str
    ensures { result.now ≡ state_text live }
{
    if live { "live" } else { "crashed" }
}

impl fmt::Display for NodeReport<'_> {
    ghost output = { λ r. Some (report_text r.node r.stage r.live r.sheet.now) };

    fn fmt<W: fmt::Write>(&self, f: &mut fmt::Formatter<W>) -> fmt::Result {
        let NodeReport {
            node,
            stage,
            live,
            sheet,
        } = *self;
        let state = state_word(live);
        write!(f, "node {node} stage {stage} {state}")?;
        for message in sheet {
            write!(f, " {message}")?;
        }
        Ok(())
    }
}

// What is reported of a node of the ring.
fn report_on<'s>(
    ring: &Ring,
    tray: &[Letter],
    book: &[Command],
    sheets: &'s [u8],
    node: u8,
) -> NodeReport<'s>
    requires { show_refusal (world ring.now tray.now book.now sheets.now) node ≡ None }
    ensures { report_text result.node result.stage result.live result.sheet.now ++ codes "\n" ≡
        node_text (world ring.now tray.now book.now sheets.now) node }
{
    match (
        ring.show(tray, book, sheets, node),
        ring.stage(node),
        ring.is_live(node),
    ) {
        (Ok(sheet), Ok(stage), Ok(live)) => NodeReport {
            node,
            stage,
            live,
            sheet,
        },
        _ => unreachable!(),
    }
}

// The lines of all nodes.
#[tactic(auto, using(crate::proofs::Growing::nodes_none, crate::proofs::Growing::nodes_more))]
pub(crate) fn node_lines(
    heap: Global,
    ring: &Ring,
    tray: &[Letter],
    book: &[Command],
    sheets: &[u8],
    size: RingSize,
) -> Result<String, AllocError>
    requires { (node : ℕ) → node < size.n → show_refusal (world ring.now tray.now book.now sheets.now) node ≡ None }
    ensures { IfOk result (λ s. string_bytes s ≡ nodes_text (world ring.now tray.now book.now sheets.now) size.n) }
{
    let mut text = String::new(heap);
    for node in 0..size.n {
        writeln!(text, "{}", report_on(ring, tray, book, sheets, node))?;
    }
    Ok(text)
}
