ghost use Rattle.std.specs.Prelude.{◌≡◌, position};
ghost use Rattle.std.specs.Iterator.{YieldsFirstRef, item_count};
ghost use Rattle.transcript.specs.Lines.{ends_line, lines_of};

// The lines of a text, one after another. A newline ends a line, so that a last one opens no further line.
// Stays: `split` gives one more line after a last newline, and its type, with a closure, has no name where lines are handed on.
#[derive(Drop)]
pub(crate) struct Lines<'a>(pub &'a [u8]);

// Where the first newline stands.
fn newline_place(text: &[u8]) -> Option<usize>
    ensures { result ≡ position ends_line text.now }
{
    text.iter().position(|byte| *byte == b'\n')
}

impl<'a> Iterator for Lines<'a> {
    type Item = &'a [u8];

    ghost next_gives = { YieldsFirstRef (λ s. lines_of s.0.now) };

    ghost remaining = { item_count (λ s. lines_of s.0.now) };

    fn next(&mut self) -> Option<&'a [u8]> {
        let text = self.0;
        if text.is_empty() {
            return None;
        }
        match newline_place(text) {
            Some(size) => {
                self.0 = &text[size + 1..];
                Some(&text[..size])
            }
            None => {
                self.0 = &[];
                Some(text)
            }
        }
    }
}
