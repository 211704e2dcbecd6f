ghost use Rattle.std.specs.Prelude.{◌≡◌, ◌/◌, count_by, length, nat_lt};
ghost use Rattle.rows.specs.Masks.{has, those};
ghost use Rattle.rows.specs.Receipts.{reached};

use crate::mask::{all_that, has_bit};
use crate::row::Check;

// The messages heard from at least q nodes.
pub(crate) fn reached_by(heard: &[u8; 64], q: u8) -> u64
    ensures { result ≡ reached heard.now q }
{
    all_that(|m| heard[usize::from(m)].count_ones() >= u32::from(q))
}

// How many of the checks have the message.
// Stays a count: `filter(..).count()` takes twice the instructions, and of `map(..).sum()` it stayed open that the sum fits.
fn holders(checks: &[Check], m: u8) -> usize
    ensures { result ≡ count_by (λ c. has c.set m) checks.now }
{
    let mut count = 0;
    for check in checks {
        count += usize::from(has_bit(check.set, m));
    }
    count
}

// The messages in more than half of the checks.
pub(crate) fn in_most(checks: &[Check]) -> u64
    ensures { result ≡ those (λ m. nat_lt (length checks.now / 2) (count_by (λ c. has c.set m) checks.now)) 64 }
{
    all_that(|m| holders(checks, m) > checks.len() / 2)
}
