use std::test::Fail;
use transcript::transcript;

// Each line alone after the kind 1: is it a command at all?
#[test]
fn a_command_is_four_numbers_in_range(rt: HostRuntime) -> Result<(), Fail> {
    let cases: [(&[u8], bool); 20] = [
        (b"1\n1 0 0 5", true),
        (b"1\n  1\t0 0  5 \r", true),
        (b"1\n001 000 0 00005", true),
        (b"1\n255 65535 65535 32767", true),
        (b"1\n0 0 0 -32768", true),
        (b"1\n0 0 0 -0", true),
        (b"1\n256 0 0 5", false),
        (b"1\n1 65536 0 5", false),
        (b"1\n1 0 65536 5", false),
        (b"1\n1 0 0 32768", false),
        (b"1\n1 0 0 -32769", false),
        (b"1\n1 0 0 99999999999999999999999", false),
        (b"1\n1 0 0", false),
        (b"1\n1 0 0 5 6", false),
        (b"1\n1 0 0 +5", false),
        (b"1\n1 0 0 -", false),
        (b"1\n1 0 0 --5", false),
        (b"1\n-1 0 0 5", false),
        (b"1\n1,0,0,5", false),
        (b"1\n\xff", false),
    ];
    for (input, is_command) in cases {
        let text = transcript(rt.alloc(), input)?;
        assert_eq!(rt;
            text.as_str().starts_with("line 2: no command\n"),
            !is_command
        );
    }
    Ok(())
}
