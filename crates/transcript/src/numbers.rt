ghost use Rattle.std.specs.Prelude.{◌≡◌};
ghost use Rattle.transcript.specs.Numbers.{with_digit, natural, integer, AtMost};

// A number with one more digit; nothing at another byte, and nothing above the limit.
fn with_digit(number: u16, byte: u8, limit: u16) -> Option<u16>
    ensures value { result ≡ with_digit limit number byte }
    ensures bound { AtMost limit result }
{
    if !byte.is_ascii_digit() {
        return None;
    }
    let longer = 10 * u32::from(number) + u32::from(byte - b'0');
    // Stays a cast: a `try_from` before the test takes half as many instructions again, at each digit.
    if longer <= u32::from(limit) {
        Some(longer as u16)
    } else {
        None
    }
}

// The number that a word writes, up to a limit.
pub(crate) fn natural(word: &[u8], limit: u16) -> Option<u16>
    ensures value { result ≡ natural limit word.now }
    ensures bound { AtMost limit result }
{
    if word.is_empty() {
        return None;
    }
    word.iter()
        .try_fold(0, |number, byte| with_digit(number, *byte, limit))
}

// The amount that a word writes: a number, or `-` and a number.
pub(crate) fn integer(word: &[u8]) -> Option<i16>
    ensures { result ≡ integer word.now }
{
    match word {
        [b'-', digits @ ..] => 0_i16.checked_sub_unsigned(natural(digits, 32_768)?),
        _ => 0_i16.checked_add_unsigned(natural(word, 32_767)?),
    }
}
