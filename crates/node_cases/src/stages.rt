use crate::desk::*;
use crate::letters::*;
use crate::server::*;
use chooser::chooser::Chooser;
use std::process::Abort;
use std::test::Fail;

// Three payments. Each is delivered with the third node that acknowledges it, in the order in which that comes; data of
// a known message, and data that the node broadcast itself, is not relayed.
#[test]
fn early(rt: HostRuntime) -> Result<(), Fail> {
    let mut desk = Desk::new([PAY, PAY, PAY], 1)?;
    let server = Server::new(&desk)?;
    let received = [
        (Call::Data(data(0, 1)), Seen::Sent(data(1, 1))),
        (Call::Data(data(2, 1)), Seen::Taken),
        (Call::Data(data(1, 2)), Seen::Taken),
        (Call::Acknowledge, Seen::Sent(acknowledgement(1, 1, 3))),
        (Call::Acknowledge, Seen::Refused(17)),
        (Call::Acknowledgement(acknowledgement(0, 1, 1)), Seen::Taken),
        (Call::Acknowledgement(acknowledgement(0, 1, 1)), Seen::Taken),
        (Call::Acknowledgement(acknowledgement(1, 1, 3)), Seen::Taken),
        (Call::Acknowledgement(acknowledgement(2, 1, 2)), Seen::Taken),
    ];
    let server = check_calls(&rt, server, &mut desk, &received);
    check_sheet(&rt, &server, &desk, &[]);
    let delivered = [
        (Call::Acknowledgement(acknowledgement(3, 1, 2)), Seen::Taken),
        (Call::Acknowledgement(acknowledgement(3, 1, 3)), Seen::Taken),
        (Call::Data(data(3, 1)), Seen::Taken),
        (Call::Close, Seen::Refused(17)),
        (Call::Data(data(3, 4)), Seen::Sent(data(1, 4))),
        (Call::Acknowledge, Seen::Sent(acknowledgement(1, 1, 7))),
        (Call::Acknowledge, Seen::Refused(17)),
    ];
    let server = check_calls(&rt, server, &mut desk, &delivered);
    check_sheet(&rt, &server, &desk, &[1, 0]);
    assert_eq!(rt; desk.sheet[2], 7);
    assert_eq!(rt; server.stage(), 1);
    assert_eq!(rt; server.retire(), left(1, 2));
    assert_eq!(rt; desk.chooser.count(1)?, 0);
    Ok(())
}

// A draw of node 0 and payments of the nodes 1 and 3. Message 2 was acknowledged before the draw came, and two of the
// three checks have it. Letters of stage 2 wait until the node is there. The node once it has proposed.
fn proposed(rt: &impl Abort, desk: &mut Desk) -> Result<Server, Fail> {
    let server = Server::new(desk)?;
    let cases = [
        (Call::Data(data(3, 4)), Seen::Sent(data(1, 4))),
        (Call::Acknowledge, Seen::Sent(acknowledgement(1, 1, 4))),
        (Call::Data(data(0, 1)), Seen::Sent(data(1, 1))),
        (Call::Acknowledge, Seen::Refused(17)),
        (Call::Check(check(0, 1, 0)), Seen::Taken),
        (Call::Close, Seen::Sent(check(1, 1, 4))),
        (Call::Propose, Seen::Refused(18)),
        (Call::Check(check(1, 1, 4)), Seen::Taken),
        (Call::Check(check(1, 1, 4)), Seen::Taken),
        (Call::Propose, Seen::Refused(18)),
        (Call::Settle, Seen::Refused(19)),
        (Call::Data(data(1, 2)), Seen::Taken),
        (Call::Check(check(3, 1, 4)), Seen::Taken),
        (Call::Check(check(2, 1, 1)), Seen::Taken),
        (Call::Check(check(0, 2, 0)), Seen::Refused(16)),
        (
            Call::Acknowledgement(acknowledgement(0, 2, 8)),
            Seen::Refused(16),
        ),
        (Call::Acknowledgement(acknowledgement(0, 1, 4)), Seen::Taken),
        (Call::Propose, Seen::Taken),
        (Call::Propose, Seen::Refused(20)),
    ];
    Ok(check_calls(rt, server, desk, &cases))
}

// Stage 2. The letters that waited are taken, and message 3 is delivered with the third node that acknowledges it there;
// what was acknowledged in stage 1 does not count. Message 4 conflicts with it. The node once it has proposed again.
fn proposed_again(rt: &impl Abort, server: Server, desk: &mut Desk) -> Server {
    let taken = [
        (Call::Check(check(0, 2, 0)), Seen::Taken),
        (Call::Acknowledgement(acknowledgement(0, 2, 8)), Seen::Taken),
        (Call::Acknowledgement(acknowledgement(2, 1, 8)), Seen::Taken),
        (Call::Data(data(0, 1)), Seen::Taken),
        (Call::Acknowledge, Seen::Refused(17)),
        (Call::Acknowledgement(acknowledgement(3, 2, 8)), Seen::Taken),
    ];
    let server = check_calls(rt, server, desk, &taken);
    check_sheet(rt, &server, desk, &[2, 0, 1]);
    let closed = [
        (Call::Acknowledgement(acknowledgement(2, 2, 8)), Seen::Taken),
        (Call::Data(data(0, 8)), Seen::Sent(data(1, 8))),
        (Call::Data(data(2, 16)), Seen::Sent(data(1, 16))),
        (Call::Close, Seen::Sent(check(1, 2, 0))),
        (Call::Check(check(2, 2, 0)), Seen::Taken),
        (Call::Propose, Seen::Refused(18)),
        (Call::Check(check(3, 2, 0)), Seen::Taken),
        (Call::Propose, Seen::Taken),
    ];
    check_calls(rt, server, desk, &closed)
}

// The node delivers message 2 first, then 0 and 1, and goes on to stage 2.
#[test]
fn settled(rt: HostRuntime) -> Result<(), Fail> {
    let mut desk = Desk::new([DRAW, PAY, PAY], 1)?;
    let server = proposed(&rt, &mut desk)?;
    assert!(rt; desk.pair == (0, 2) || desk.pair == (2, 0));
    assert_eq!(rt; desk.chooser.decision(1), Ok(Some((4, 3))));
    check_sheet(&rt, &server, &desk, &[]);
    assert_eq!(rt; server.stage(), 1);
    let server = check_calls(&rt, server, &mut desk, &[(Call::Settle, Seen::Taken)]);
    check_sheet(&rt, &server, &desk, &[2, 0, 1]);
    assert_eq!(rt; server.stage(), 2);
    // Meanwhile node 0 has broadcast a payment, and node 2 a draw.
    desk.book[3] = PAY;
    desk.broadcasters[3] = 0;
    desk.book[4] = DRAW;
    desk.broadcasters[4] = 2;
    let server = proposed_again(&rt, server, &mut desk);
    check_sheet(&rt, &server, &desk, &[2, 0, 1, 3]);
    assert_eq!(rt; desk.chooser.decision(2), Ok(Some((0, 24))));
    assert_eq!(rt; server.retire(), left(2, 4));
    Ok(())
}

// The chooser wants two proposals, and decides by the lower node's. What was delivered early is not written again.
#[test]
fn undecided(rt: HostRuntime) -> Result<(), Fail> {
    let mut desk = Desk::new([DRAW, PAY, PAY], 2)?;
    let server = Server::new(&desk)?;
    let proposed = [
        (Call::Data(data(3, 4)), Seen::Sent(data(1, 4))),
        (Call::Acknowledge, Seen::Sent(acknowledgement(1, 1, 4))),
        (Call::Acknowledgement(acknowledgement(0, 1, 4)), Seen::Taken),
        (Call::Acknowledgement(acknowledgement(1, 1, 4)), Seen::Taken),
        (Call::Acknowledgement(acknowledgement(3, 1, 4)), Seen::Taken),
        (Call::Data(data(0, 1)), Seen::Sent(data(1, 1))),
        (Call::Close, Seen::Sent(check(1, 1, 4))),
        (Call::Check(check(0, 1, 4)), Seen::Taken),
        (Call::Check(check(1, 1, 4)), Seen::Taken),
        (Call::Check(check(3, 1, 4)), Seen::Taken),
        (Call::Propose, Seen::Taken),
        (Call::Settle, Seen::Refused(19)),
    ];
    let server = check_calls(&rt, server, &mut desk, &proposed);
    check_sheet(&rt, &server, &desk, &[2]);
    assert_eq!(rt; desk.chooser.propose(1, 0, (4, 3)), Ok(()));
    let server = check_calls(&rt, server, &mut desk, &[(Call::Settle, Seen::Taken)]);
    check_sheet(&rt, &server, &desk, &[2, 0, 1]);
    let next = [
        (Call::Data(data(1, 2)), Seen::Taken),
        (Call::Acknowledge, Seen::Refused(17)),
    ];
    let server = check_calls(&rt, server, &mut desk, &next);
    assert_eq!(rt; server.retire(), left(2, 3));
    Ok(())
}
