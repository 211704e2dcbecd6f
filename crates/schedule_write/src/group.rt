ghost use Rattle.std.specs.Prelude.{◌≡◌, length};
ghost use Rattle.schedule.specs.Numbers.{spell};

// How many groups a number takes.
pub(crate) fn group_count(value: u16) -> usize
    ensures { result ≡ length (spell value) }
{
    if value < 128 {
        1
    } else if value < 16_384 {
        2
    } else {
        3
    }
}
