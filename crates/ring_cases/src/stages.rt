use crate::desk::*;
use chooser::chooser::Chooser;
use chooser::first_come::FirstCome;
use chooser::lowest_of::LowestOf;
use chooser::refusal::Refusal::ProposedBefore;
use record::kitty::Kitty;
use record::record::Record;
use ring::step::Step;
use rows::letter::Letter;
use rows::refusal::Refusal;
use rows::size::RingSize;
use std::process::Abort;
use std::test::Fail;

// Three nodes acknowledge a message; each delivers it with the third acknowledgement, ahead of any decision.
#[test]
fn early(rt: HostRuntime) -> Result<(), Fail> {
    let mut desk = Desk::started(3, 3)?;
    let cases = [
        (Call::Broadcast(0, PAY), 0),
        (Call::Receive(0), 0),
        (Call::Receive(1), 0),
        (Call::Receive(2), 0),
        (Call::Step(0), 0),
        (Call::Step(0), 17),
        (Call::Step(1), 0),
        (Call::Step(2), 0),
        (Call::Receive(9), 0),
        (Call::Receive(12), 0),
    ];
    check_calls(&rt, &mut desk, &cases);
    assert_eq!(rt; desk.sheet(0)?, [].as_slice());
    assert_eq!(rt; desk.call(Call::Receive(15)), 0);
    assert_eq!(rt; desk.sheet(0)?, [0].as_slice());
    assert_eq!(rt; desk.sheet(1)?, [].as_slice());
    assert_eq!(rt; desk.chooser.count(1)?, 0);
    assert_eq!(rt; desk.ring.stage(0)?, 1);
    Ok(())
}

// What a step of the only node answers.
fn step(desk: &mut Desk) -> Result<Step, Refusal> {
    desk.ring.step::<Kitty, FirstCome>(
        &mut desk.tray,
        &desk.book,
        &mut desk.sheets,
        &mut desk.chooser,
        0,
    )
}

// Two conflicting messages close the stage of a ring of one, and the decision settles it.
#[test]
fn settled(rt: HostRuntime) -> Result<(), Fail> {
    let mut desk = Desk::started(1, 1)?;
    let calls = [
        Call::Broadcast(0, PAY),
        Call::Broadcast(0, DRAW),
        Call::Receive(0),
        Call::Receive(1),
    ];
    check_all(&rt, &mut desk, &calls, 0);
    let closed = step(&mut desk)?;
    assert!(rt; closed == Step::Closed(0, 1) || closed == Step::Closed(1, 0));
    assert_eq!(rt; number_of(step(&mut desk)), 18);
    assert_eq!(rt; desk.call(Call::Receive(2)), 0);
    assert_eq!(rt; step(&mut desk)?, Step::Proposed);
    assert_eq!(rt; desk.chooser.decision(1)?, Some((0, 3)));
    assert_eq!(rt; desk.ring.stage(0)?, 1);
    assert_eq!(rt; step(&mut desk)?, Step::Settled);
    assert_eq!(rt; desk.ring.stage(0)?, 2);
    assert_eq!(rt; desk.sheet(0)?, [0, 1].as_slice());
    assert_eq!(rt; number_of(step(&mut desk)), 17);
    Ok(())
}

// What was acknowledged before the conflict is nonconflicting: it is delivered first, though its number is higher.
#[test]
fn nonconflicting_first(rt: HostRuntime) -> Result<(), Fail> {
    let mut desk = Desk::started(1, 1)?;
    let calls = [
        Call::Broadcast(0, DRAW),
        Call::Broadcast(0, PAY),
        Call::Receive(1),
        Call::Step(0),
        Call::Receive(0),
        Call::Step(0),
        Call::Receive(3),
        Call::Step(0),
        Call::Step(0),
    ];
    check_all(&rt, &mut desk, &calls, 0);
    assert_eq!(rt; desk.chooser.decision(1)?, Some((2, 1)));
    assert_eq!(rt; desk.sheet(0)?, [1, 0].as_slice());
    assert_eq!(rt; desk.call(Call::Receive(2)), 0);
    assert_eq!(rt; desk.sheet(0)?, [1, 0].as_slice());
    Ok(())
}

// A closing node takes acknowledgements without delivering on them.
#[test]
fn acknowledged_while_closing(rt: HostRuntime) -> Result<(), Fail> {
    let mut desk = Desk::started(1, 1)?;
    let calls = [
        Call::Broadcast(0, PAY),
        Call::Receive(0),
        Call::Step(0),
        Call::Broadcast(0, DRAW),
        Call::Receive(2),
        Call::Step(0),
        Call::Receive(1),
    ];
    check_all(&rt, &mut desk, &calls, 0);
    assert_eq!(rt; desk.sheet(0)?, [].as_slice());
    assert_eq!(rt; desk.call(Call::Step(0)), 18);
    Ok(())
}

// Two nodes that both received two conflicting messages and closed their stage, and keep no check yet.
fn both_closed(rt: &impl Abort, chooser: &mut LowestOf) -> Result<Desk, Fail> {
    let mut desk = Desk::new();
    let size = RingSize::new(2, 2)?;
    let (tray, book, sheets) = (&mut desk.tray, &mut desk.book, &mut desk.sheets);
    desk.ring.start(tray, book, sheets, chooser, size)?;
    let calls = [
        Call::Broadcast(0, PAY),
        Call::Broadcast(0, DRAW),
        Call::Receive(0),
        Call::Receive(2),
        Call::Receive(1),
        Call::Receive(3),
        Call::Step(0),
        Call::Step(1),
    ];
    check_all(rt, &mut desk, &calls, 0);
    Ok(desk)
}

// What a step with a chooser of its own answers.
fn stepped_with(desk: &mut Desk, chooser: &mut LowestOf, node: u8) -> Result<Step, Refusal> {
    desk.ring.step::<Kitty, LowestOf>(&mut desk.tray, &desk.book, &mut desk.sheets, chooser, node)
}

// Its number.
fn step_with(desk: &mut Desk, chooser: &mut LowestOf, node: u8) -> u8 {
    number_of(stepped_with(desk, chooser, node))
}

// A node waits for two checks before it proposes, and then for the other's proposal, since the chooser needs both.
#[test]
fn undecided(rt: HostRuntime) -> Result<(), Fail> {
    let mut chooser = LowestOf::new(2)?;
    let mut desk = both_closed(&rt, &mut chooser)?;
    assert_eq!(rt; desk.call(Call::Receive(8)), 0);
    assert_eq!(rt; step_with(&mut desk, &mut chooser, 0), 18);
    assert_eq!(rt; desk.call(Call::Receive(10)), 0);
    assert_eq!(rt; step_with(&mut desk, &mut chooser, 0), 0);
    assert_eq!(rt; step_with(&mut desk, &mut chooser, 0), 19);
    assert_eq!(rt; desk.call(Call::Receive(9)), 0);
    assert_eq!(rt; desk.call(Call::Receive(11)), 0);
    assert_eq!(rt; step_with(&mut desk, &mut chooser, 1), 0);
    assert_eq!(rt; step_with(&mut desk, &mut chooser, 0), 0);
    assert_eq!(rt; desk.sheet(0)?, [0, 1].as_slice());
    assert_eq!(rt; desk.sheet(1)?, [].as_slice());
    Ok(())
}

// A chooser that somebody else used refuses, and the node has not proposed; too few checks come first.
#[test]
fn chooser_used(rt: HostRuntime) -> Result<(), Fail> {
    let mut chooser = LowestOf::new(2)?;
    let mut desk = both_closed(&rt, &mut chooser)?;
    chooser.propose(1, 0, (0, 0))?;
    assert_eq!(rt; step_with(&mut desk, &mut chooser, 0), 18);
    assert_eq!(rt; desk.call(Call::Receive(8)), 0);
    assert_eq!(rt; desk.call(Call::Receive(10)), 0);
    assert_eq!(rt; step_with(&mut desk, &mut chooser, 0), 20);
    assert_eq!(rt; chooser.count(1)?, 1);
    let again = stepped_with(&mut desk, &mut chooser, 0);
    assert!(rt; again == Err(Refusal::Chooser(ProposedBefore)));
    assert_eq!(rt;
        again.err().and_then(|refusal| refusal.chooser_number()),
        Some(33)
    );
    Ok(())
}

// A closing node takes a check of the stage before without keeping it.
#[test]
fn check_of_an_earlier_stage(rt: HostRuntime) -> Result<(), Fail> {
    let mut desk = Desk::started(1, 1)?;
    let calls = [
        Call::Broadcast(0, PAY),
        Call::Broadcast(0, DRAW),
        Call::Receive(0),
        Call::Receive(1),
        Call::Step(0),
        Call::Receive(2),
        Call::Step(0),
        Call::Step(0),
        Call::Broadcast(0, PAY),
        Call::Broadcast(0, DRAW),
        Call::Receive(3),
        Call::Receive(4),
        Call::Step(0),
    ];
    check_all(&rt, &mut desk, &calls, 0);
    let check = desk.tray[5];
    desk.tray[5] = Letter { stage: 1, ..check };
    assert_eq!(rt; desk.call(Call::Receive(5)), 0);
    assert_eq!(rt; desk.call(Call::Step(0)), 18);
    desk.tray[5] = check;
    assert_eq!(rt; desk.call(Call::Receive(5)), 0);
    assert_eq!(rt; desk.call(Call::Step(0)), 0);
    assert_eq!(rt; desk.call(Call::Step(0)), 0);
    assert_eq!(rt; desk.sheet(0)?, [0, 1, 2, 3].as_slice());
    Ok(())
}
