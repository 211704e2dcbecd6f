ghost use Rattle.std.specs.Prelude.{◌≡◌, ◌+◌, ◌*◌, ◌<◌, ℕ, Bool, count_ones};
ghost use Rattle.rows.specs.Masks.{has, minus, within, members, put, those};

// How many messages a mask has room for.
pub(crate) const MOST_MESSAGES: u8 = 64;

// Stays functions on u64: the masks in rows and letters are public numbers, and with a type of sets
// `MessageSet(self.received).without(MessageSet(self.delivered)).0` stands for `without(self.received, self.delivered)`.

// Whether the set has i.
pub(crate) fn has_bit(set: u64, i: u8) -> bool
    ensures { result ≡ has set i }
{
    i < MOST_MESSAGES && (set >> i) % 2 == 1
}

// What a has and b has not.
pub(crate) fn without(a: u64, b: u64) -> u64
    ensures { result ≡ minus a b }
{
    a & !b
}

// Whether b has all that a has.
pub(crate) fn is_within(a: u64, b: u64) -> bool
    ensures { result ≡ within a b }
{
    without(a, b) == 0
}

// The set of the messages that pass the test.
pub(crate) fn all_that<F: Fn(u8) -> bool>(passes: F) -> u64
    requires { (m : ℕ) → m < 64 → F.pre passes m }
    ensures { (p : ℕ → Bool) →
        ((m : ℕ) → m < 64 → (b : Bool) → F.post passes m b → b ≡ p m) → result ≡ those p 64 }
{
    let mut found = 0u64;
    for m in 0..MOST_MESSAGES {
        if passes(m) {
            found |= 1u64 << m;
        }
    }
    found
}

// Writes the members of the set, lowest first, from the place on.
fn append(sheets: &mut [u8], place: usize, set: u64)
    ensures { sheets.new ≡ put sheets.old place (members set 64) }
{
    let members = (0..MOST_MESSAGES).filter(|m| has_bit(set, *m));
    // Stays by index: with sheets.iter_mut().skip(place) it stayed open that the places given out so far, written back,
    // are `put`.
    for (at, m) in (place..sheets.len()).zip(members) {
        sheets[at] = m;
    }
}

// Writes the members of the set on the sheet that begins at place 64 `at`, behind the messages that it has.
// Stays two parameters, all sheets and which of them: `Row::take` and `Row::settle` are public and are lent both, so a
// struct of them would be made in each of the two for one or two calls.
pub(crate) fn extend_sheet(sheets: &mut [u8], at: u8, written: u64, set: u64)
    ensures { sheets.new ≡ put sheets.old (64 * at + count_ones written) (members set 64) }
{
    // Stays a cast: usize has no From of u32.
    let place = usize::from(MOST_MESSAGES) * usize::from(at) + written.count_ones() as usize;
    append(sheets, place, set);
}
