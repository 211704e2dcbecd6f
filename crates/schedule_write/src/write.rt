ghost use Rattle.std.specs.Prelude.{◌≡◌, ◌≤◌, ◌++◌, length, drop, IfOk, OnErr};
ghost use Rattle.schedule.specs.Numbers.{spell};
ghost use Rattle.schedule.specs.Drafts.{spelling};
ghost use Rattle.schedule.specs.Laws.{ReadsBack};
ghost use Rattle.schedule_write.specs.Outcomes.{outcome};

use crate::group::group_count;
use crate::numbers::{numbers_of, size_of};
use crate::refusal::WriteRefusal;
use schedule::draft::Draft;

// Writes bytes at the front, and answers how many they are.
fn lay(front: &mut [u8], bytes: &[u8]) -> usize
    requires { length bytes.now ≤ length front.old }
    ensures size { result ≡ length bytes.now }
    ensures wrote { front.new ≡ bytes.now ++ drop (length bytes.now) front.old }
{
    front[..bytes.len()].copy_from_slice(bytes);
    bytes.len()
}

// Writes a number at the front, and answers how many bytes it takes.
fn put(front: &mut [u8], value: u16) -> usize
    requires { length (spell value) ≤ length front.old }
    ensures size { result ≡ length (spell value) }
    ensures wrote { front.new ≡ spell value ++ drop (length (spell value)) front.old }
{
    let low = (value % 128) as u8;
    let middle = (value / 128 % 128) as u8;
    let high = (value / 128 / 128) as u8;
    match group_count(value) {
        1 => lay(front, &[low]),
        2 => lay(front, &[128 + low, middle]),
        _ => lay(front, &[128 + low, 128 + middle, high]),
    }
}

// Writes an entry at the front of the buffer, and answers its length. Refused, and the buffer then stays as it was: 42 a
// number is above its limit; 46 the buffer is shorter than the entry.
pub fn write(draft: Draft, buffer: &mut [u8]) -> Result<usize, WriteRefusal>
    ensures value { result ≡ outcome draft (length buffer.old) }
    ensures wrote { IfOk result (λ n. buffer.new ≡ spelling draft ++ drop n buffer.old) }
    ensures kept { OnErr result (buffer.new ≡ buffer.old) }
    ensures back { IfOk result (λ n. ReadsBack draft n) }
{
    let numbers = numbers_of(draft)?;
    let list = numbers.as_slice();
    if size_of(list) > buffer.len() {
        return Err(WriteRefusal::BufferTooShort);
    }
    // Stays a loop: the closure of a fold would write the buffer, of which a proof then knows nothing.
    let mut at = 0;
    for value in list {
        at += put(&mut buffer[at..], *value);
    }
    Ok(at)
}
