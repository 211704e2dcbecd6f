ghost use Rattle.std.specs.Prelude.{◌+◌, ◌*◌, ◌≤◌};

// The size of a ring: how many nodes it has, and its quorum q, which is both the number of nodes whose
// acknowledgements deliver a message early and the number of checks that a closing node waits for.
#[derive(Clone, Copy)]
pub struct RingSize {
    pub n: u8,
    pub q: u8,
    ghost low: { 1 ≤ n },
    ghost high: { n ≤ 7 },
    ghost within: { q ≤ n },
    ghost quorum: { 2 * n + 1 ≤ 3 * q },
}
