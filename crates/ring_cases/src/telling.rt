use crate::desk::*;
use record::kitty::Kitty;
use record::record::Record;
use record::rounds::Rounds;
use std::process::Abort;
use std::test::Fail;

// A ring of one that delivered a payment, a payment and a draw.
fn delivered(rt: &impl Abort) -> Result<Desk, Fail> {
    let mut desk = Desk::started(1, 1)?;
    for call in [
        Call::Broadcast(0, PAY),
        Call::Broadcast(0, PAY),
        Call::Receive(0),
        Call::Receive(1),
        Call::Step(0),
        Call::Receive(2),
    ] {
        assert_eq!(rt; desk.call(call), 0);
    }
    assert_eq!(rt; desk.sheet(0)?, [0, 1].as_slice());
    Ok(desk)
}

// Catching up gives a record the commands from the mark on, and answers the new mark.
#[test]
fn catches_up(rt: HostRuntime) -> Result<(), Fail> {
    let desk = delivered(&rt)?;
    let mut kitty = Kitty::new();
    assert_eq!(rt; desk.catch_up(&mut kitty, 0, 1)?, 2);
    assert_eq!(rt; kitty.tell(rt.alloc())?.as_slice(), [50].as_slice());
    assert_eq!(rt; desk.catch_up(&mut kitty, 0, 2)?, 2);
    assert_eq!(rt; kitty.tell(rt.alloc())?.as_slice(), [50].as_slice());
    assert_eq!(rt; desk.catch_up(&mut kitty, 0, 0)?, 2);
    assert_eq!(rt; kitty.tell(rt.alloc())?.as_slice(), [150].as_slice());
    Ok(())
}

// The number of catching a kitty up with node 0.
fn caught(desk: &Desk, kitty: &mut Kitty, mark: usize) -> u8 {
    number_of(desk.catch_up(kitty, 0, mark))
}

// The causes of catching up in their order; a refused one leaves the record.
#[test]
fn cannot_catch_up(rt: HostRuntime) -> Result<(), Fail> {
    let mut desk = delivered(&rt)?;
    let mut kitty = Kitty::new();
    let no_tray = desk.ring.catch_up(&desk.tray[0..0], &desk.book, &desk.sheets, &mut kitty, 1, 9);
    assert_eq!(rt; number_of(no_tray), 4);
    assert_eq!(rt; number_of(desk.catch_up(&mut kitty, 1, 9)), 8);
    desk.sheets[1] = 2;
    assert_eq!(rt; caught(&desk, &mut kitty, 3), 23);
    assert_eq!(rt; caught(&desk, &mut kitty, 0), 22);
    assert_eq!(rt; caught(&desk, &mut kitty, 2), 0);
    desk.sheets[1] = 1;
    desk.book[1] = UNLAWFUL;
    assert_eq!(rt; caught(&desk, &mut kitty, 0), 22);
    assert_eq!(rt; kitty.tell(rt.alloc())?.as_slice(), [0].as_slice());
    Ok(())
}

// A sheet is played into the kind of record that its commands are lawful for.
#[test]
fn another_kind(rt: HostRuntime) -> Result<(), Fail> {
    let desk = delivered(&rt)?;
    let mut rounds = Rounds::new();
    assert_eq!(rt; desk.catch_up(&mut rounds, 0, 0)?, 2);
    Ok(())
}
