use crate::helpers::check_reports;
use std::test::Fail;

// Headers that start no day: a fault in them, or numbers that make no ring.
#[test]
fn headers(rt: HostRuntime) -> Result<(), Fail> {
    let cases: [(&[u8], &str); 16] = [
        (&[], "fault 41 at 0\n"),
        (&[1], "fault 41 at 1\n"),
        (&[0x80], "fault 41 at 0\n"),
        (&[1, 1, 1], "fault 41 at 3\n"),
        (&[0x80, 0x80, 0x04, 1, 1, 1], "fault 42 at 0\n"),
        (&[1, 1, 0x81, 0, 1], "fault 42 at 2\n"),
        (&[1, 1, 3, 1], "fault 43 at 2\n"),
        (&[1, 1, 1, 4], "fault 43 at 3\n"),
        (&[1, 1, 0, 0x80], "fault 43 at 2\n"),
        (&[0, 0, 1, 1], "start 1\n"),
        (&[8, 8, 1, 1], "start 1\n"),
        (&[0xFF, 0xFF, 0x03, 2, 1, 1], "start 1\n"),
        (&[1, 2, 1, 1], "start 2\n"),
        (&[1, 0x80, 0x02, 1, 1], "start 2\n"),
        (&[4, 2, 1, 1], "start 3\n"),
        (&[1, 0, 2, 1, 9], "start 3\n"),
    ];
    check_reports(&rt, rt.alloc(), &cases)
}
