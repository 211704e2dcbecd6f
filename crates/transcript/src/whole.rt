ghost use Rattle.std.specs.Prelude.{◌≡◌, IfOk, string_bytes};
ghost use Rattle.transcript.specs.Lines.{lines_of};
ghost use Rattle.transcript.specs.Transcript.{text_after, played_text};

use crate::lines::Lines;
use crate::play::play_lines;
use crate::told::Told;
use record::closing_book::ClosingBook;
use record::kitty::Kitty;
use record::pair::Pair;
use record::record_kind::RecordKind;
use record::rounds::Rounds;
use std::alloc::{AllocError, Global};

// Plays the lines into a new record; the answers to them, and then what the record tells.
fn play_new<R: Told + Drop>(heap: Global, lines: Lines<'_>) -> Result<String, AllocError>
    ensures { IfOk result (λ s. string_bytes s ≡ text_after R.Record.kind.taking R.Told.shown (lines_of lines.entry.0.now)) }
{
    let mut account = R::new();
    let mut text = String::new(heap);
    play_lines(&mut account, &mut text, lines)?;
    let list = account.tell(heap)?;
    let told = R::told_text(heap, &list)?;
    text.push_str(told.as_str())?;
    Ok(text)
}

// The answers to the lines, and then what the record of this choice tells.
pub(crate) fn played_text(
    heap: Global,
    choice: RecordKind,
    lines: Lines<'_>,
) -> Result<String, AllocError>
    ensures { IfOk result (λ s. string_bytes s ≡ played_text choice (lines_of lines.entry.0.now)) }
{
    match choice {
        RecordKind::Kitty => play_new::<Kitty>(heap, lines),
        RecordKind::Rounds => play_new::<Rounds>(heap, lines),
        RecordKind::Both => play_new::<Pair<Kitty, ClosingBook<Rounds>>>(heap, lines),
    }
}
