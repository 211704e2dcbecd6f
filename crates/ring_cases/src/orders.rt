use crate::desk::*;
use chooser::first_come::FirstCome;
use record::kitty::Kitty;
use record::record::Record;
use rows::letter::Letter;
use std::test::Fail;

// A short book is lent to a ring that was never started: the tables are looked at first.
#[test]
fn tables_first(rt: HostRuntime) {
    let mut desk = Desk::new();
    let mut kitty = Kitty::new();
    let ring = &mut desk.ring;
    let (tray, short, sheets) = (&mut desk.tray, &mut desk.book[0..63], &mut desk.sheets);
    let broadcast = ring.broadcast::<Kitty>(tray, short, sheets, 0, PAY);
    assert_eq!(rt; number_of(broadcast), 4);
    assert_eq!(rt; number_of(ring.receive(tray, short, sheets, 0)), 4);
    let step = ring.step::<Kitty, FirstCome>(tray, short, sheets, &mut desk.chooser, 0);
    assert_eq!(rt; number_of(step), 4);
    assert_eq!(rt; number_of(ring.lose(tray, short, sheets, 0)), 4);
    assert_eq!(rt; number_of(ring.show(tray, short, sheets, 0)), 4);
    let caught = ring.catch_up(tray, short, sheets, &mut kitty, 0, 1);
    assert_eq!(rt; number_of(caught), 4);
    assert_eq!(rt; number_of(desk.catch_up(&mut kitty, 0, 1)), 7);
}

// Letters that stand at place 0 of a ring of two with one message, whose node 1 has crashed: the number of a loss and
// that of a receipt.
#[test]
fn letters(rt: HostRuntime) -> Result<(), Fail> {
    let mut desk = Desk::started(2, 2)?;
    assert_eq!(rt; desk.call(Call::Broadcast(0, PAY)), 0);
    assert_eq!(rt; desk.call(Call::Crash(1)), 0);
    let good = Letter {
        sender: 0,
        receiver: 1,
        kind: 2,
        mark: 1,
        stage: 1,
        set: 1,
    };
    let back = Letter {
        sender: 1,
        receiver: 0,
        ..good
    };
    let inside = Letter {
        receiver: 0,
        ..good
    };
    let cases = [
        // spoilt, and taken before
        (
            Letter {
                kind: 0,
                mark: 2,
                ..good
            },
            14,
            14,
        ),
        // spoilt, and to the crashed node
        (Letter { set: 2, ..good }, 15, 15),
        // spoilt, and between live nodes
        (Letter { set: 2, ..inside }, 15, 15),
        // of a later stage, and to the crashed node
        (Letter { stage: 2, ..good }, 0, 9),
        // of a later stage, and from the crashed node
        (Letter { stage: 2, ..back }, 0, 16),
        // from the crashed node
        (back, 0, 0),
        // between live nodes
        (inside, 21, 0),
    ];
    for (letter, lost, received) in cases {
        desk.tray[0] = letter;
        assert_eq!(rt; desk.call(Call::Lose(0)), lost);
        desk.tray[0] = letter;
        assert_eq!(rt; desk.call(Call::Receive(0)), received);
    }
    Ok(())
}
