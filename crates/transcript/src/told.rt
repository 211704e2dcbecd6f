ghost use Rattle.std.specs.Prelude.{◌≡◌, ℕ, drop, List, IfOk, string_bytes};
ghost use Rattle.transcript.specs.Telling.{balance_text, rounds_text, both_text};

use crate::rounds_text::rounds_text;
use crate::told_text::{balance_text, book_text, part_from};
use record::closing_book::ClosingBook;
use record::kitty::Kitty;
use record::pair::Pair;
use record::record::Record;
use record::rounds::Rounds;
use std::alloc::{AllocError, Global};

// A record of which the told list is printed.
pub(crate) trait Told: Record {
    // what is printed of a list
    ghost shown: { List ℕ → List ℕ };

    // What is printed of a list that such a record tells.
    fn told_text(heap: Global, list: &[u32]) -> Result<String, AllocError>
        ensures { IfOk result (λ s. string_bytes s ≡ shown list.now) };
}

impl Told for Kitty {
    ghost shown = { balance_text };

    fn told_text(heap: Global, list: &[u32]) -> Result<String, AllocError> {
        balance_text(heap, list)
    }
}

impl Told for Rounds {
    ghost shown = { rounds_text };

    fn told_text(heap: Global, list: &[u32]) -> Result<String, AllocError> {
        rounds_text(heap, list)
    }
}

// Of the pair the kitty, then the book, then what is below the book.
impl Told for Pair<Kitty, ClosingBook<Rounds>> {
    ghost shown = { both_text };

    fn told_text(heap: Global, list: &[u32]) -> Result<String, AllocError> {
        let balance = balance_text(heap, list)?;
        let book = book_text(heap, part_from(list, 1))?;
        let rounds = rounds_text(heap, part_from(list, 2))?;
        format!(in heap; "{balance}{book}{rounds}")
    }
}
