use crate::desk::*;
use crate::letters::*;
use crate::server::*;
use chooser::chooser::Chooser;
use chooser::lowest_of::LowestOf;
use node::gathering_node::Gathering;
use rows::letter::{Letter, LetterKind};
use rows::size::RingSize;
use std::process::Abort;
use std::test::Fail;

// The number of making the node of this number, in a ring of four with quorum 3 and a chooser of this need.
fn begin(number: u8, need: u8) -> Result<u8, Fail> {
    let chooser = LowestOf::new(need)?;
    match Gathering::new(RingSize::new(4, 3)?, number, &chooser) {
        Ok(node) => {
            node.retire();
            Ok(0)
        }
        Err(refusal) => Ok(refusal.number()),
    }
}

// A node is refused for its number first, then for the chooser's need.
#[test]
fn first_nodes(rt: HostRuntime) -> Result<(), Fail> {
    for (number, need, answer) in [(4, 4, 8), (255, 1, 8), (3, 4, 5), (0, 3, 0), (3, 1, 0)] {
        assert_eq!(rt; begin(number, need)?, answer, "node {number}, need {need}");
    }
    Ok(())
}

// A closing node that received messages 0 and 2, which conflict, and acknowledged none of them.
fn closed(rt: &impl Abort, desk: &mut Desk) -> Result<Server, Fail> {
    let cases = [
        (Call::Data(data(3, 4)), Seen::Sent(data(1, 4))),
        (Call::Data(data(0, 1)), Seen::Sent(data(1, 1))),
        (Call::Close, Seen::Sent(check(1, 1, 0))),
    ];
    let server = Server::new(desk)?;
    Ok(check_calls(rt, server, desk, &cases))
}

// Tables of the wrong size are refused first of all, by every call of either state.
#[test]
fn wrong_tables(rt: HostRuntime) -> Result<(), Fail> {
    let empty = Letter::default();
    let mut desk = Desk::new([DRAW, PAY, PAY], 1)?;
    let mut gathers = Server::new(&desk)?;
    for sizes in WRONG {
        desk.sizes = sizes;
        let calls = [
            Call::Data(empty),
            Call::Acknowledgement(empty),
            Call::Check(empty),
            Call::Acknowledge,
            Call::Close,
        ];
        gathers = check_all(&rt, gathers, &mut desk, &calls, 4);
    }
    assert_eq!(rt; number_of(gathers.show(&desk.sheet[1..])), 4);
    gathers.retire();
    desk.sizes = Sizes::Right;
    let mut closes = closed(&rt, &mut desk)?;
    for sizes in WRONG {
        desk.sizes = sizes;
        let calls = [
            Call::Data(empty),
            Call::Check(empty),
            Call::Propose,
            Call::Settle,
        ];
        closes = check_all(&rt, closes, &mut desk, &calls, 4);
    }
    assert_eq!(rt; number_of(closes.show(&desk.sheet[1..])), 4);
    closes.retire();
    Ok(())
}

// Letters that no call takes, made of one that the call for its kind takes: what does not travel is refused first, then
// what is spoilt or for another node.
fn of_no_use(good: Letter) -> [(Letter, u8); 13] {
    [
        (marked(0, of_kind(0, good)), 14),
        (marked(2, at_stage(9, good)), 14),
        (marked(3, good), 14),
        (marked(255, sent_to(0, good)), 14),
        (of_kind(0, good), 15),
        (of_kind(4, good), 15),
        (sent_by(4, good), 15),
        (sent_to(4, good), 15),
        (sent_to(0, good), 15),
        (sent_to(0, at_stage(9, good)), 15),
        (with_set(8, good), 15),
        (with_set(8, at_stage(9, good)), 15),
        (with_set(1 << 63, good), 15),
    ]
}

// The call that takes letters of the kind.
fn taking(kind: LetterKind, letter: Letter) -> Call {
    match kind {
        LetterKind::Data => Call::Data(letter),
        LetterKind::Acknowledgement => Call::Acknowledgement(letter),
        LetterKind::Check => Call::Check(letter),
    }
}

// Sees that the call for the kind refuses all letters made of the good one that are of no use, and these others, and
// takes the good one. The node then.
fn check_letters(
    rt: &impl Abort,
    mut server: Server,
    desk: &mut Desk,
    kind: LetterKind,
    good: Letter,
    others: [(Letter, u8); 4],
) -> Server {
    for (letter, cause) in of_no_use(good) {
        server = check_all(rt, server, desk, &[taking(kind, letter)], cause);
    }
    for (letter, cause) in others {
        server = check_all(rt, server, desk, &[taking(kind, letter)], cause);
    }
    check_calls(rt, server, desk, &[(taking(kind, good), Seen::Taken)])
}

// The call for data, with data of the node's own message, which is not relayed.
fn check_data(rt: &impl Abort, server: Server, desk: &mut Desk) -> Server {
    let good = data(1, 2);
    let others = [
        (at_stage(1, good), 15),
        (with_set(3, good), 15),
        (acknowledgement(1, 1, 2), 15),
        (check(1, 1, 2), 15),
    ];
    check_letters(rt, server, desk, LetterKind::Data, good, others)
}

// The call for acknowledgements.
fn check_acknowledgements(rt: &impl Abort, server: Server, desk: &mut Desk) -> Server {
    let good = acknowledgement(0, 1, 1);
    let others = [
        (at_stage(0, good), 15),
        (data(0, 1), 15),
        (check(0, 2, 1), 15),
        (at_stage(2, good), 16),
    ];
    check_letters(rt, server, desk, LetterKind::Acknowledgement, good, others)
}

// The call for checks.
fn check_checks(rt: &impl Abort, server: Server, desk: &mut Desk) -> Server {
    let good = check(0, 1, 1);
    let others = [
        (at_stage(0, good), 15),
        (data(0, 1), 15),
        (acknowledgement(0, 2, 1), 15),
        (at_stage(u32::MAX, good), 16),
    ];
    check_letters(rt, server, desk, LetterKind::Check, good, others)
}

// Takes two checks more, after which there are three: only then it may propose. The node then.
fn check_third(rt: &impl Abort, server: Server, desk: &mut Desk) -> Server {
    let cases = [
        (Call::Propose, Seen::Refused(18)),
        (Call::Check(check(2, 1, 1)), Seen::Taken),
        (Call::Propose, Seen::Refused(18)),
        (Call::Check(check(3, 1, 1)), Seen::Taken),
        (Call::Propose, Seen::Taken),
    ];
    check_calls(rt, server, desk, &cases)
}

// Each call of a gathering node for letters refuses what it does not take. Of all of these it knows message 1, that node 0
// acknowledged message 0, and one check.
#[test]
fn letters_while_gathering(rt: HostRuntime) -> Result<(), Fail> {
    let mut desk = Desk::new([DRAW, PAY, PAY], 1)?;
    let server = Server::new(&desk)?;
    let server = check_data(&rt, server, &mut desk);
    let server = check_acknowledgements(&rt, server, &mut desk);
    let server = check_checks(&rt, server, &mut desk);
    let heard = [
        (Call::Acknowledge, Seen::Sent(acknowledgement(1, 1, 2))),
        (Call::Acknowledgement(acknowledgement(2, 1, 3)), Seen::Taken),
        (Call::Acknowledgement(acknowledgement(3, 1, 2)), Seen::Taken),
    ];
    let server = check_calls(&rt, server, &mut desk, &heard);
    check_sheet(&rt, &server, &desk, &[]);
    let closed = [
        (Call::Acknowledgement(acknowledgement(3, 1, 1)), Seen::Taken),
        (Call::Data(data(0, 1)), Seen::Sent(data(1, 1))),
        (Call::Close, Seen::Sent(check(1, 1, 2))),
    ];
    let server = check_calls(&rt, server, &mut desk, &closed);
    check_sheet(&rt, &server, &desk, &[0]);
    let server = check_third(&rt, server, &mut desk);
    assert_eq!(rt; desk.chooser.decision(1), Ok(Some((1, 2))));
    assert_eq!(rt; server.retire(), left(1, 1));
    Ok(())
}

// Each call of a closing node for letters refuses what it does not take. Of all of these it knows message 1, besides 0 and
// 2, and one check.
#[test]
fn letters_while_closing(rt: HostRuntime) -> Result<(), Fail> {
    let mut desk = Desk::new([DRAW, PAY, PAY], 1)?;
    let server = closed(&rt, &mut desk)?;
    let server = check_data(&rt, server, &mut desk);
    let server = check_checks(&rt, server, &mut desk);
    let server = check_third(&rt, server, &mut desk);
    assert_eq!(rt; desk.chooser.decision(1), Ok(Some((1, 6))));
    assert_eq!(rt; server.retire(), left(1, 0));
    Ok(())
}

// A node acknowledges what is new where nothing conflicts, and closes over what is new where something does.
#[test]
fn nothing_new(rt: HostRuntime) -> Result<(), Fail> {
    let mut desk = Desk::new([PAY, DRAW, PAY], 1)?;
    let server = Server::new(&desk)?;
    let cases = [
        (Call::Acknowledge, Seen::Refused(17)),
        (Call::Close, Seen::Refused(17)),
        (Call::Data(data(0, 1)), Seen::Sent(data(1, 1))),
        (Call::Data(data(3, 4)), Seen::Sent(data(1, 4))),
        (Call::Close, Seen::Refused(17)),
        (Call::Acknowledge, Seen::Sent(acknowledgement(1, 1, 5))),
        (Call::Acknowledge, Seen::Refused(17)),
        (Call::Close, Seen::Refused(17)),
    ];
    let server = check_calls(&rt, server, &mut desk, &cases);
    // With another book the two conflict, but neither is new.
    desk.book[2] = DRAW;
    let scribbled = [
        (Call::Acknowledge, Seen::Refused(17)),
        (Call::Close, Seen::Refused(17)),
    ];
    let server = check_calls(&rt, server, &mut desk, &scribbled);
    desk.book[2] = PAY;
    let cases = [
        (Call::Data(data(1, 2)), Seen::Taken),
        (Call::Acknowledge, Seen::Refused(17)),
        (Call::Close, Seen::Sent(check(1, 1, 5))),
        (Call::Propose, Seen::Refused(18)),
    ];
    let server = check_calls(&rt, server, &mut desk, &cases);
    assert_eq!(rt; server.retire(), left(1, 0));
    Ok(())
}
