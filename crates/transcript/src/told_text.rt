ghost use Rattle.std.specs.Prelude.{◌≡◌, drop, IfOk, string_bytes, slice_index};
ghost use Rattle.transcript.specs.Telling.{balance_text, book_text};

use crate::book_state::BookState;
use std::alloc::{AllocError, Global};

// The number at a place of a told list, 0 beyond its end.
pub(crate) fn number_at(list: &[u32], place: usize) -> u32
    ensures { result ≡ slice_index list.now place }
{
    list.get(place).copied().unwrap_or(0)
}

// The part of a told list from a place on.
pub(crate) fn part_from(list: &[u32], place: usize) -> &[u32]
    ensures { result.now ≡ drop place list.now }
{
    list.get(place..).unwrap_or(&[])
}

// The balance, which is the first number.
pub(crate) fn balance_text(heap: Global, list: &[u32]) -> Result<String, AllocError>
    ensures { IfOk result (λ s. string_bytes s ≡ balance_text list.now) }
{
    format!(in heap; "balance {}\n", number_at(list, 0))
}

// The state of the book, which is the first number.
pub(crate) fn book_text(heap: Global, list: &[u32]) -> Result<String, AllocError>
    ensures { IfOk result (λ s. string_bytes s ≡ book_text list.now) }
{
    format!(in heap; "book {}\n", BookState::from(number_at(list, 0)))
}
