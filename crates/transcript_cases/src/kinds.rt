use crate::helpers::check_texts;
use std::test::Fail;
use transcript::transcript;

#[test]
fn each_line_is_answered(rt: HostRuntime) -> Result<(), Fail> {
    let cases: [(&[u8], &str); 4] = [
        (
            b"1\n1 0 0 50\n2 0 0 50\n",
            "line 2: taken\nline 3: taken\nbalance 0\n",
        ),
        (
            b"1\n2 0 0 50\n1 0 0 50\n",
            "line 2: taken\nline 3: taken\nbalance 50\n",
        ),
        // what was taken before and after a line that is no command counts
        (
            b"1\n1 0 0 7\n\nhello\n1 0 0 8",
            "line 2: taken\nline 3: no command\nline 4: no command\nline 5: taken\nbalance 15\n",
        ),
        (
            b"1\n1 0 0 0\n1 0 0 9\n",
            "line 2: refused 10\nline 3: taken\nbalance 9\n",
        ),
    ];
    check_texts(&rt, rt.alloc(), &cases)
}

#[test]
fn players_with_rounds_have_a_line(rt: HostRuntime) -> Result<(), Fail> {
    let input = b"2\n1 7 3 -999\n1 0 100 50\n1 0 99 40\n1 0 100 40\n2 0 0 -100\n1 8 0 0\n";
    let want =
        "line 2: taken\nline 3: taken\nline 4: taken\nline 5: taken\nline 6: taken\nline 7: refused 10\n\
        player 0: day 100 amount -60, day 100 amount -50, day 99 amount -60\nplayer 7: day 3 amount -999\n";
    let text = transcript(rt.alloc(), input)?;
    assert_eq!(rt; text.as_str(), want);
    Ok(())
}

#[test]
fn a_pair_shows_both_sides(rt: HostRuntime) -> Result<(), Fail> {
    let input = b"3\n1 0 0 5\n255 1 0 0\n1 1 9 9\n1 2 0 5\n";
    let want =
        "line 2: taken\nline 3: taken\nline 4: taken\nline 5: refused 10\nbalance 5\nbook closed\nno rounds\n";
    let text = transcript(rt.alloc(), input)?;
    assert_eq!(rt; text.as_str(), want);
    Ok(())
}
