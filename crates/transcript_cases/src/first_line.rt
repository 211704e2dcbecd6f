use crate::helpers::check_texts;
use std::test::Fail;

#[test]
fn the_first_line_names_the_kind(rt: HostRuntime) -> Result<(), Fail> {
    let none = "line 1: no kind of record\n";
    let cases: [(&[u8], &str); 12] = [
        (b"", none),
        (b"\n", none),
        (b"0\n", none),
        (b"4\n1 0 0 5\n", none),
        (b"kitty\n", none),
        (b"1 2\n", none),
        (b"1 0 0 5\n", none),
        (b"-1\n", none),
        (b"1", "balance 0\n"),
        (b" 01\t\r\n", "balance 0\n"),
        (b"2\n", "no rounds\n"),
        (b"3\n", "balance 0\nbook open\nno rounds\n"),
    ];
    check_texts(&rt, rt.alloc(), &cases)
}
