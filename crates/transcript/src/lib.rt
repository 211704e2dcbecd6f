// What a person types to play a record, and the text that is printed for it.
#![tactic(auto)]

mod answer;
mod book_state;
mod command_line;
pub mod laws;
mod lines;
mod numbers;
mod play;
mod player;
mod rounds_text;
mod told;
mod told_text;
mod whole;
mod words;

ghost use Rattle.std.specs.Prelude.{◌≡◌, IfOk, string_bytes};
ghost use Rattle.transcript.specs.Transcript.{transcript_of};

use command_line::choice_of;
use lines::Lines;
use std::alloc::{AllocError, Global};
use whole::played_text;

// The whole text for an input: its first line names the kind of record, and each further line is a command.
pub fn transcript(heap: Global, input: &[u8]) -> Result<String, AllocError>
    ensures { IfOk result (λ s. string_bytes s ≡ transcript_of input.now) }
{
    let mut lines = Lines(input);
    match lines.next().and_then(choice_of) {
        Some(choice) => played_text(heap, choice, lines),
        None => String::from_str(heap, "line 1: no kind of record\n"),
    }
}
