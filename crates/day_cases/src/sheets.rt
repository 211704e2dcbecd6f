use crate::helpers::check_reports;
use std::alloc::{AllocError, Global};
use std::test::Fail;

// The lines of a node that delivered these messages, and of the counts.
const TEN: &str = "node 0 stage 1 live 0 1 2 3 4 5 6 7 8 9\naccepted 22 refused 0\n";

const ALL: &str =
    "node 0 stage 1 live 0 1 2 3 4 5 6 7 8 9 10 11 12 13 14 15 16 17 18 19 20 21 22 23 24 25 26 27 28 29 30 31 32 33 34 35 36 37 38 39 40 41 42 43 44 45 46 47 48 49 50 51 52 53 54 55 56 57 58 59 60 61 62 63\naccepted 130 refused 1\n";

// A day of one node that broadcasts so many payments, receives all of them, acknowledges them by one letter, and receives
// that: the letter at place m is the data of message m, and the one behind them the acknowledgement.
fn payments(heap: Global, count: u8) -> Result<Vec<u8>, AllocError> {
    let mut bytes = [1u8, 1, 1, 1].to_vec(heap)?;
    for _ in 0..count {
        bytes.extend_from_slice(&[1, 0, 6, 1, 0, 0, 0xB2, 0x80, 0x02])?;
    }
    for place in 0..count {
        bytes.extend_from_slice(&[2, place])?;
    }
    bytes.extend_from_slice(&[3, 0, 2, count])?;
    Ok(bytes)
}

// Ten messages are delivered at once.
#[test]
fn ten(rt: HostRuntime) -> Result<(), Fail> {
    let day = payments(rt.alloc(), 10)?;
    check_reports(&rt, rt.alloc(), &[(day.as_slice(), TEN)])
}

// All 64 messages that a day can have are delivered at once; one more broadcast is refused.
#[test]
fn all(rt: HostRuntime) -> Result<(), Fail> {
    let mut day = payments(rt.alloc(), 64)?;
    day.extend_from_slice(&[1, 0, 6, 1, 0, 0, 0xB2, 0x80, 0x02])?;
    check_reports(&rt, rt.alloc(), &[(day.as_slice(), ALL)])
}
