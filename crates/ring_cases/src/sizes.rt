use crate::desk::*;
use chooser::chooser::Chooser;
use chooser::first_come::FirstCome;
use chooser::lowest_of::LowestOf;
use rows::size::RingSize;
use std::test::Fail;

// Nodes, quorum, and the number that making the size answers.
#[test]
fn sizes(rt: HostRuntime) {
    let cases: [(u16, u16, u8); 14] = [
        (0, 0, 1),
        (0, 1, 1),
        (8, 8, 1),
        (8, 9, 1),
        (1, 2, 2),
        (7, 8, 2),
        (1, 0, 3),
        (2, 1, 3),
        (3, 2, 3),
        (4, 2, 3),
        (7, 4, 3),
        (1, 1, 0),
        (4, 3, 0),
        (7, 5, 0),
    ];
    for (n, q, number) in cases {
        assert_eq!(rt; number_of(RingSize::new(n, q)), number);
    }
}

// A start is refused for the sizes of the tables first, then for the chooser's need, then for its proposals.
#[test]
fn starts(rt: HostRuntime) -> Result<(), Fail> {
    let size = RingSize::new(1, 1)?;
    let mut greedy = LowestOf::new(2)?;
    greedy.propose(1, 0, (0, 0))?;
    let mut used = FirstCome::new();
    used.propose(32, 6, (0, 0))?;
    let mut desk = Desk::new();
    let ring = &mut desk.ring;
    let (tray, book, sheets) = (&mut desk.tray, &mut desk.book, &mut desk.sheets);
    let no_tray = ring.start(&mut tray[0..0], book, sheets, &greedy, size);
    assert_eq!(rt; number_of(no_tray), 4);
    let short_book = ring.start(tray, &mut book[0..63], sheets, &greedy, size);
    assert_eq!(rt; number_of(short_book), 4);
    let short_sheets = ring.start(tray, book, &mut sheets[1..448], &greedy, size);
    assert_eq!(rt; number_of(short_sheets), 4);
    assert_eq!(rt; number_of(ring.start(tray, book, sheets, &greedy, size)), 5);
    assert_eq!(rt; number_of(ring.start(tray, book, sheets, &used, size)), 6);
    assert_eq!(rt; desk.sheets[0], 7);
    assert_eq!(rt; number_of(desk.start(size)), 0);
    assert_eq!(rt; desk.sheets[0], 0);
    assert_eq!(rt; desk.book[63].verb, 0);
    assert_eq!(rt; desk.ring.stage(0)?, 1);
    Ok(())
}
