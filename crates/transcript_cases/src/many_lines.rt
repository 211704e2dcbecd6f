use std::fmt::Write;
use std::test::Fail;
use transcript::transcript;

// A hundred lines, each of which pays 3 into a kitty: each is answered by its number in the input.
#[test]
fn each_of_many_lines_is_answered(rt: HostRuntime) -> Result<(), Fail> {
    let heap = rt.alloc();
    let mut input = String::from_str(heap, "1\n")?;
    let mut want = String::new(heap);
    for line in 2..=101u8 {
        input.push_str("1 0 0 3\n")?;
        writeln!(want, "line {line}: taken")?;
    }
    want.push_str("balance 300\n")?;
    let text = transcript(heap, input.as_bytes())?;
    assert_eq!(rt; text.as_str(), want.as_str());
    Ok(())
}
