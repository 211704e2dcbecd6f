ghost use Rattle.std.specs.Prelude.{◌≡◌, position};
ghost use Rattle.std.specs.Iterator.{YieldsFirstRef, item_count};
ghost use Rattle.transcript.specs.Words.{is_blank, in_word, words_of};

// The words of a line, one after another: the runs of bytes that are not blank.
// Stays: no function can hand out `split` with `filter`, so both callers would have the chain and a proof of its words.
#[derive(Drop)]
pub(crate) struct Words<'a>(pub &'a [u8]);

// Whether a byte stands between words.
fn is_blank(byte: u8) -> bool
    ensures { result ≡ is_blank byte }
{
    matches!(byte, b' ' | b'\t' | b'\r')
}

// Where the first word of a line begins.
fn word_start(line: &[u8]) -> Option<usize>
    ensures { result ≡ position in_word line.now }
{
    line.iter().position(|byte| !is_blank(*byte))
}

// Where the next blank stands.
fn blank_place(text: &[u8]) -> Option<usize>
    ensures { result ≡ position is_blank text.now }
{
    text.iter().position(|byte| is_blank(*byte))
}

impl<'a> Iterator for Words<'a> {
    type Item = &'a [u8];

    ghost next_gives = { YieldsFirstRef (λ s. words_of s.0.now) };

    ghost remaining = { item_count (λ s. words_of s.0.now) };

    #[tactic(auto, using(crate::proofs::WordCuts::word_steps))]
    fn next(&mut self) -> Option<&'a [u8]> {
        let text = &self.0[word_start(self.0)?..];
        let (word, rest) = text.split_at(blank_place(text).unwrap_or(text.len()));
        self.0 = rest;
        Some(word)
    }
}
