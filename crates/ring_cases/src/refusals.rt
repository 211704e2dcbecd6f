use crate::desk::*;
use chooser::refusal::Refusal as ChooserRefusal;
use record::command::Command;
use record::kitty::Kitty;
use record::record::Record;
use rows::letter::Letter;
use rows::refusal::Refusal;
use std::test::Fail;

// Calls on a ring that was never started.
#[test]
fn never_started(rt: HostRuntime) {
    let mut desk = Desk::new();
    let calls = [
        Call::Broadcast(0, PAY),
        Call::Receive(0),
        Call::Step(0),
        Call::Crash(0),
        Call::Lose(0),
    ];
    check_all(&rt, &mut desk, &calls, 7);
    assert_eq!(rt; number_of(desk.ring.stage(0)), 7);
    assert_eq!(rt; number_of(desk.ring.is_live(0)), 7);
    assert_eq!(rt; number_of(desk.sheet(0)), 7);
}

// The causes of broadcasts, crashes and steps, in a ring of three, and what stays after them.
#[test]
fn causes_of_a_node(rt: HostRuntime) -> Result<(), Fail> {
    let mut desk = Desk::started(3, 3)?;
    let cases = [
        (Call::Broadcast(3, PAY), 8),
        (Call::Crash(3), 8),
        (Call::Step(255), 8),
        (Call::Step(0), 17),
        (Call::Broadcast(0, UNLAWFUL), 10),
        (Call::Crash(2), 0),
        (Call::Crash(2), 9),
        (Call::Broadcast(2, UNLAWFUL), 9),
        (Call::Step(2), 9),
        (Call::Broadcast(0, PAY), 0),
    ];
    check_calls(&rt, &mut desk, &cases);
    assert_eq!(rt; desk.ring.is_live(2)?, false);
    assert_eq!(rt; desk.ring.is_live(1)?, true);
    assert_eq!(rt; number_of(desk.ring.is_live(3)), 8);
    assert_eq!(rt; number_of(desk.ring.stage(3)), 8);
    assert_eq!(rt; number_of(desk.sheet(3)), 8);
    assert_eq!(rt; desk.ring.stage(2)?, 1);
    assert_eq!(rt; desk.sheet(2)?, [].as_slice());
    assert_eq!(rt; desk.book[0], PAY);
    Ok(())
}

// A full tray refuses what would send, and nothing else: 24 places, three to a sending.
#[test]
fn full_tray(rt: HostRuntime) -> Result<(), Fail> {
    let mut desk = Desk::started(3, 3)?;
    for _ in 0..8 {
        assert_eq!(rt; desk.call(Call::Broadcast(0, PAY)), 0);
    }
    let cases = [
        (Call::Broadcast(0, PAY), 12),
        (Call::Receive(1), 12),
        (Call::Receive(0), 0),
        (Call::Step(0), 12),
        (Call::Step(1), 17),
        (Call::Crash(1), 0),
        (Call::Receive(1), 9),
        (Call::Lose(1), 0),
    ];
    check_calls(&rt, &mut desk, &cases);
    Ok(())
}

// The number of one more broadcast, with a tray of its own.
fn broadcast_into(desk: &mut Desk, tray: &mut [Letter; 64], command: Command) -> u8 {
    number_of(
        desk.ring
            .broadcast::<Kitty>(tray, &mut desk.book, &desk.sheets, 0, command),
    )
}

// The sixty-fifth message is refused before the tray is looked at, and an unlawful command before both.
#[test]
fn full_book(rt: HostRuntime) -> Result<(), Fail> {
    let mut desk = Desk::started(1, 1)?;
    let mut tray = [Letter::default(); 64];
    for _ in 0..64 {
        assert_eq!(rt; broadcast_into(&mut desk, &mut tray, PAY), 0);
    }
    assert_eq!(rt; broadcast_into(&mut desk, &mut tray, PAY), 11);
    assert_eq!(rt; broadcast_into(&mut desk, &mut tray, UNLAWFUL), 10);
    Ok(())
}

// Tables of the wrong size are refused first of all.
#[test]
fn wrong_tables(rt: HostRuntime) -> Result<(), Fail> {
    let mut desk = Desk::started(1, 1)?;
    let ring = &mut desk.ring;
    let (tray, book, short) = (&mut desk.tray, &mut desk.book, &mut desk.sheets[0..447]);
    assert_eq!(rt; number_of(ring.receive(tray, book, short, 9)), 4);
    assert_eq!(rt; number_of(ring.lose(tray, book, short, 9)), 4);
    let broadcast = ring.broadcast::<Kitty>(tray, book, short, 9, UNLAWFUL);
    assert_eq!(rt; number_of(broadcast), 4);
    assert_eq!(rt; number_of(ring.show(tray, book, short, 9)), 4);
    let sheets = &mut desk.sheets;
    let mut long = [Letter::default(); 4097];
    assert_eq!(rt; number_of(ring.receive(&mut long, book, sheets, 9)), 4);
    assert_eq!(rt; number_of(ring.receive(tray, &book[0..0], sheets, 9)), 4);
    Ok(())
}

// A refusal of the chooser goes by 20 and tells the chooser's own number; another one has no such number.
#[test]
fn numbers_of_a_refusal(rt: HostRuntime) {
    let cases = [
        (Refusal::Chooser(ChooserRefusal::NoSuchStage), 20, Some(31)),
        (Refusal::Chooser(ChooserRefusal::NoSuchNode), 20, Some(32)),
        (
            Refusal::Chooser(ChooserRefusal::ProposedBefore),
            20,
            Some(33),
        ),
        (Refusal::Undecided, 19, None),
        (Refusal::NobodyCrashed, 21, None),
    ];
    for (refusal, number, chooser_number) in cases {
        assert_eq!(rt; refusal.number(), number);
        assert_eq!(rt; refusal.chooser_number(), chooser_number);
    }
}
