use report::input::report_from;
use report::report::report_of;
use std::alloc::{AllocError, Global};
use std::test::Fail;

// A header of one node and so many steps of it, all of which find nothing new.
fn steps(heap: Global, count: u16) -> Result<Vec<u8>, AllocError> {
    let mut bytes = [1u8, 1, 1, 1].to_vec(heap)?;
    for _ in 0..count {
        bytes.extend_from_slice(&[3, 0])?;
    }
    Ok(bytes)
}

// 4,096 bytes are read, one more is too many.
#[test]
fn longest(rt: HostRuntime) -> Result<(), Fail> {
    let heap = rt.alloc();
    let mut bytes = steps(heap, 2_046)?;
    assert_eq!(rt; bytes.len(), 4_096);
    let got = report_of(heap, bytes.as_slice())?;
    assert_eq!(rt;
        got.as_str(),
        "node 0 stage 1 live\naccepted 0 refused 2046\n"
    );
    bytes.extend_from_slice(&[3])?;
    let long = report_of(heap, bytes.as_slice())?;
    assert_eq!(rt; long.as_str(), "long\n");
    Ok(())
}

// Seven nodes: 64 broadcasts fill 448 of the 1,024 places, 82 relays seven each of 574 more; the next finds 2 left.
#[test]
fn full_tray(rt: HostRuntime) -> Result<(), Fail> {
    let heap = rt.alloc();
    let mut bytes = [7u8, 5, 1, 1].to_vec(heap)?;
    for _ in 0..64 {
        bytes.extend_from_slice(&[1, 0, 6, 1, 0, 0, 0xB2, 0x80, 0x02])?;
    }
    for m in 0..13u8 {
        for receiver in 1..7u8 {
            bytes.extend_from_slice(&[2, 7 * m + receiver])?;
        }
    }
    for receiver in 1..6u8 {
        bytes.extend_from_slice(&[2, 91 + receiver])?;
    }
    let got = report_of(heap, bytes.as_slice())?;
    assert_eq!(rt;
        got.as_str(),
        "node 0 stage 1 live\nnode 1 stage 1 live\nnode 2 stage 1 live\nnode 3 stage 1 live\nnode 4 stage 1 live\nnode 5 stage 1 live\nnode 6 stage 1 live\naccepted 146 refused 1\n"
    );
    Ok(())
}

// Of a reader with 5,000 bytes no more than 4,097 are taken; one with 4,096 is read whole.
#[test]
fn from_a_reader(rt: HostRuntime) -> Result<(), Fail> {
    let heap = rt.alloc();
    let long = steps(heap, 2_498)?;
    let mut rest = long.as_slice();
    let told = report_from(heap, &mut rest)?;
    assert_eq!(rt; told.as_str(), "long\n");
    assert_eq!(rt; rest.len(), 903);
    let whole = steps(heap, 2_046)?;
    let told = report_from(heap, whole.as_slice())?;
    assert_eq!(rt;
        told.as_str(),
        "node 0 stage 1 live\naccepted 0 refused 2046\n"
    );
    Ok(())
}

// A fault far behind: the place of an unknown entry is counted over all that was read before it.
#[test]
fn fault_after_many_entries(rt: HostRuntime) -> Result<(), Fail> {
    let heap = rt.alloc();
    let mut bytes = steps(heap, 1_000)?;
    bytes.extend_from_slice(&[9])?;
    let got = report_of(heap, bytes.as_slice())?;
    assert_eq!(rt;
        got.as_str(),
        "node 0 stage 1 live\naccepted 0 refused 1000\nfault 43 at 2004\n"
    );
    Ok(())
}
