ghost use Rattle.std.specs.Prelude.{◌≡◌, ◌^◌, ◌<◌, ◌≤◌, length, nat_lt, IfSome, Some, MatchOption};
ghost use Rattle.std.specs.List.{list_any};
ghost use Rattle.schedule.specs.Numbers.{front, overlong, fit, Longer};

// Whether some byte ends a number.
pub(crate) fn has_end(bytes: &[u8]) -> bool
    ensures { result ≡ list_any (λ b. nat_lt b 128) bytes.now }
{
    bytes.iter().any(|byte| *byte < 128)
}

// Whether the number of so many bytes is longer than need be: its last group is 0, and is not its only one.
fn is_overlong(bytes: &[u8], size: usize) -> bool
    requires { size ≤ length bytes.now }
    ensures { result ≡ overlong bytes.now size }
{
    size > 1 && bytes[size - 1] == 0
}

// Whether the number of this value and length at the front is within its limit, and no longer than need be.
pub(crate) fn is_fit(bytes: &[u8], value: u32, size: usize, limit: u16) -> bool
    requires { size ≤ length bytes.now }
    ensures { result ≡ fit limit bytes.now (value, size) }
{
    value <= u32::from(limit) && !is_overlong(bytes, size)
}

// The value and the length of the number at the front, if it ends within three groups.
pub(crate) fn short_number(bytes: &[u8]) -> Option<(u32, usize)>
    ensures value { MatchOption result (Longer bytes.now) (λ t. front bytes.now ≡ Some t) }
    ensures fits { IfSome result (λ t. (t.1 ≤ length bytes.now) × (t.0 < 2 ^ 21)) }
{
    match bytes {
        [a, ..] if *a < 128 => Some((u32::from(*a), 1)),
        [a, b, ..] if *b < 128 => Some((u32::from(*a % 128) + 128 * u32::from(*b), 2)),
        [a, b, c, ..] if *c < 128 => {
            let high = u32::from(*b % 128) + 128 * u32::from(*c);
            Some((u32::from(*a % 128) + 128 * high, 3))
        }
        _ => None,
    }
}
