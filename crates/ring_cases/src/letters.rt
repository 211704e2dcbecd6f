use crate::desk::*;
use rows::letter::Letter;
use std::test::Fail;

// A letter that a ring of two nodes with one message sends: node 0's acknowledgement to node 1.
const GOOD: Letter = Letter {
    sender: 0,
    receiver: 1,
    kind: 2,
    mark: 1,
    stage: 1,
    set: 1,
};

// A letter of each spoilt sort, written over the one at place 0: it can be neither received nor lost.
#[test]
fn spoilt(rt: HostRuntime) -> Result<(), Fail> {
    let mut desk = Desk::started(2, 2)?;
    assert_eq!(rt; desk.call(Call::Broadcast(0, PAY)), 0);
    let sorts = [
        Letter { kind: 0, ..GOOD },
        Letter { kind: 4, ..GOOD },
        Letter { sender: 2, ..GOOD },
        Letter {
            receiver: 2,
            ..GOOD
        },
        Letter { set: 2, ..GOOD },
        Letter {
            set: 1 << 63,
            ..GOOD
        },
        Letter { kind: 1, ..GOOD },
        Letter {
            kind: 1,
            stage: 0,
            set: 0,
            ..GOOD
        },
        Letter { stage: 0, ..GOOD },
        Letter {
            kind: 3,
            stage: 0,
            ..GOOD
        },
    ];
    for letter in sorts {
        desk.tray[0] = letter;
        assert_eq!(rt; desk.call(Call::Receive(0)), 15);
        assert_eq!(rt; desk.call(Call::Lose(0)), 15);
    }
    desk.tray[0] = GOOD;
    assert_eq!(rt; desk.call(Call::Receive(0)), 0);
    Ok(())
}

// Data of two messages is spoilt, and so is a message that is still to come.
#[test]
fn spoilt_data(rt: HostRuntime) -> Result<(), Fail> {
    let mut desk = Desk::started(2, 2)?;
    assert_eq!(rt; desk.call(Call::Broadcast(0, PAY)), 0);
    assert_eq!(rt; desk.call(Call::Broadcast(0, PAY)), 0);
    let data = Letter {
        kind: 1,
        stage: 0,
        ..GOOD
    };
    for (set, number) in [(3, 15), (4, 15), (1, 0), (2, 14)] {
        if number != 14 {
            desk.tray[0] = Letter { set, ..data };
        }
        assert_eq!(rt; desk.call(Call::Receive(0)), number);
    }
    Ok(())
}

// Which places have a letter, and which letters travel, in a ring of two with one message.
#[test]
fn places(rt: HostRuntime) -> Result<(), Fail> {
    let mut desk = Desk::started(2, 2)?;
    let cases = [
        (Call::Receive(0), 13),
        (Call::Lose(0), 13),
        (Call::Broadcast(0, PAY), 0),
        (Call::Receive(2), 13),
        (Call::Receive(24), 13),
        (Call::Receive(65_535), 13),
        (Call::Lose(1), 21),
        (Call::Receive(0), 0),
        (Call::Receive(0), 14),
        (Call::Lose(0), 14),
        (Call::Crash(1), 0),
        (Call::Receive(1), 9),
        (Call::Lose(1), 0),
        (Call::Receive(1), 14),
    ];
    check_calls(&rt, &mut desk, &cases);
    assert_eq!(rt; desk.tray[0].mark, 2);
    assert_eq!(rt; desk.tray[1].mark, 3);
    Ok(())
}

// A letter of a crashed sender may be received or lost; one between live nodes may not be lost.
#[test]
fn crashed_sender(rt: HostRuntime) -> Result<(), Fail> {
    let mut desk = Desk::started(2, 2)?;
    let cases = [
        (Call::Broadcast(0, PAY), 0),
        (Call::Broadcast(0, PAY), 0),
        (Call::Lose(1), 21),
        (Call::Crash(0), 0),
        (Call::Receive(1), 0),
        (Call::Lose(3), 0),
        (Call::Lose(2), 0),
    ];
    check_calls(&rt, &mut desk, &cases);
    Ok(())
}

// Letters of a later stage than their receiver's wait.
#[test]
fn stages_of_letters(rt: HostRuntime) -> Result<(), Fail> {
    let mut desk = Desk::started(2, 2)?;
    assert_eq!(rt; desk.call(Call::Broadcast(0, PAY)), 0);
    for (stage, number) in [(2, 16), (4_294_967_295, 16), (1, 0)] {
        desk.tray[0] = Letter { stage, ..GOOD };
        assert_eq!(rt; desk.call(Call::Receive(0)), number);
    }
    Ok(())
}

// Only a node that did not broadcast a message relays it, and only when it is new to that node: how many places of the
// tray are used after each call.
#[test]
fn relays(rt: HostRuntime) -> Result<(), Fail> {
    let mut desk = Desk::started(2, 2)?;
    let cases = [
        (Call::Broadcast(0, PAY), 2),
        (Call::Receive(0), 2),
        (Call::Receive(1), 4),
        (Call::Receive(2), 4),
        (Call::Receive(3), 4),
    ];
    for (call, used) in cases {
        assert_eq!(rt; desk.call(call), 0);
        assert_eq!(rt; desk.call(Call::Lose(used)), 13);
        assert_ne!(rt; desk.call(Call::Lose(used - 1)), 13);
    }
    Ok(())
}
