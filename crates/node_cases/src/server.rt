use crate::desk::*;
use crate::letters::sent_to;
use node::closing_node::Closing;
use node::gathering_node::Gathering;
use node::handover::{Closed, Refused, Retired};
use record::kitty::Kitty;
use record::record::Record;
use rows::letter::Letter;
use rows::refusal::Refusal;
use rows::size::RingSize;
use std::process::Abort;
use std::test::Fail;

// A server runs one node, which is in one of the two states.
pub(crate) enum Server {
    Gathers(Gathering),
    Closes(Closing),
}

// What a server asks of its node.
#[derive(Clone, Copy)]
pub(crate) enum Call {
    Data(Letter),
    Acknowledgement(Letter),
    Check(Letter),
    Acknowledge,
    Close,
    Propose,
    Settle,
}

// What is seen of a call: it was accepted and sent this letter to all; it was accepted and sent nothing; it was refused
// by this number and left the letters and the sheet.
#[derive(Clone, Copy)]
pub(crate) enum Seen {
    Sent(Letter),
    Taken,
    Refused(u8),
}

impl Server {
    // Node 1 of a ring of four with quorum 3.
    pub(crate) fn new(desk: &Desk) -> Result<Server, Fail> {
        let size = RingSize::new(4, 3)?;
        Ok(Server::Gathers(Gathering::new(size, 1, &desk.chooser)?))
    }

    // Makes the call. The node then, and the call's number.
    pub(crate) fn call(self, desk: &mut Desk, call: Call) -> (Server, u8) {
        match self {
            Server::Gathers(node) => gather(node, desk, call),
            Server::Closes(node) => decide(node, desk, call),
        }
    }

    pub(crate) fn stage(&self) -> u32 {
        match self {
            Server::Gathers(node) => node.stage(),
            Server::Closes(node) => node.stage(),
        }
    }

    pub(crate) fn show<'s>(&self, sheet: &'s [u8]) -> Result<&'s [u8], Refusal> {
        match self {
            Server::Gathers(node) => node.show(sheet),
            Server::Closes(node) => node.show(sheet),
        }
    }

    pub(crate) fn retire(self) -> Retired {
        match self {
            Server::Gathers(node) => node.retire(),
            Server::Closes(node) => node.retire(),
        }
    }
}

// A call of a gathering node. It has nothing to propose and nothing to settle.
fn gather(mut node: Gathering, desk: &mut Desk, call: Call) -> (Server, u8) {
    let mut tables = lend(
        desk.sizes,
        &desk.book,
        &desk.broadcasters,
        &mut desk.letters,
        &mut desk.sheet,
    );
    let answer = match call {
        Call::Data(letter) => node.take_data(&mut tables, letter),
        Call::Acknowledgement(letter) => node.take_acknowledgement(&mut tables, letter),
        Call::Check(letter) => node.take_check(&mut tables, letter),
        Call::Acknowledge => node.acknowledge::<Kitty>(&mut tables),
        Call::Close => {
            return match node.close::<Kitty>(&mut tables) {
                Ok(Closed { node, pair }) => {
                    desk.pair = pair;
                    (Server::Closes(node), 0)
                }
                Err(Refused { node, refusal }) => (Server::Gathers(node), refusal.number()),
            };
        }
        Call::Propose | Call::Settle => Ok(()),
    };
    (Server::Gathers(node), number_of(answer))
}

// A call of a closing node. It has no call for acknowledgements: one of a later stage has to wait, as any letter of a
// later stage does; the others would come to nothing, and are thrown away.
fn decide(mut node: Closing, desk: &mut Desk, call: Call) -> (Server, u8) {
    let mut tables = lend(
        desk.sizes,
        &desk.book,
        &desk.broadcasters,
        &mut desk.letters,
        &mut desk.sheet,
    );
    let answer = match call {
        Call::Data(letter) => node.take_data(&mut tables, letter),
        Call::Check(letter) => node.take_check(&mut tables, letter),
        Call::Propose => node.propose(&tables, &mut desk.chooser),
        Call::Settle => {
            return match node.settle(&mut tables, &desk.chooser) {
                Ok(next) => (Server::Gathers(next), 0),
                Err(Refused { node, refusal }) => (Server::Closes(node), refusal.number()),
            };
        }
        Call::Acknowledgement(letter) if letter.stage > node.stage() => Err(Refusal::LaterStage),
        Call::Acknowledgement(_) | Call::Acknowledge | Call::Close => Ok(()),
    };
    (Server::Closes(node), number_of(answer))
}

// The letter as a sending writes it: to each of the four nodes. The fifth place is not lent.
fn to_all(letter: Letter) -> [Letter; 5] {
    [
        sent_to(0, letter),
        sent_to(1, letter),
        sent_to(2, letter),
        sent_to(3, letter),
        Letter::default(),
    ]
}

// Empties the letters, makes the call, and sees what comes of it. The node then.
fn check_call(rt: &impl Abort, server: Server, desk: &mut Desk, call: Call, seen: Seen) -> Server {
    let empty = [Letter::default(); 5];
    let sheet = desk.sheet;
    desk.letters = empty;
    let (server, number) = server.call(desk, call);
    match seen {
        Seen::Sent(letter) => {
            assert_eq!(rt; number, 0);
            assert_eq!(rt; desk.letters, to_all(letter));
        }
        Seen::Taken => {
            assert_eq!(rt; number, 0);
            assert_eq!(rt; desk.letters, empty);
        }
        Seen::Refused(cause) => {
            assert_eq!(rt; number, cause);
            assert_eq!(rt; desk.letters, empty);
            assert_eq!(rt; desk.sheet, sheet);
        }
    }
    server
}

// What is left of a node that was ended in this stage, with so many messages on its sheet.
pub(crate) fn left(stage: u32, sheet_length: usize) -> Retired {
    Retired {
        stage,
        sheet_length,
    }
}

// Sees that the node delivered these messages in this order.
pub(crate) fn check_sheet(rt: &impl Abort, server: &Server, desk: &Desk, delivered: &[u8]) {
    assert_eq!(rt; server.show(&desk.sheet), Ok(delivered));
}

// Makes each call in turn, and sees what comes of it. The node then.
pub(crate) fn check_calls(
    rt: &impl Abort,
    mut server: Server,
    desk: &mut Desk,
    cases: &[(Call, Seen)],
) -> Server {
    for (call, seen) in cases {
        server = check_call(rt, server, desk, *call, *seen);
    }
    server
}

// Sees that all the calls are refused by one number. The node then.
pub(crate) fn check_all(
    rt: &impl Abort,
    mut server: Server,
    desk: &mut Desk,
    calls: &[Call],
    cause: u8,
) -> Server {
    for call in calls {
        server = check_call(rt, server, desk, *call, Seen::Refused(cause));
    }
    server
}
