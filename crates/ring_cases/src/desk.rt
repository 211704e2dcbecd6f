use chooser::chooser::Chooser;
use chooser::first_come::FirstCome;
use record::command::Command;
use record::kitty::Kitty;
use record::record::Record;
use ring::ring::Ring;
use rows::letter::Letter;
use rows::refusal::Refusal;
use rows::size::RingSize;
use std::process::Abort;

// A ring over Kitty with First-come and tables of its own: a tray of 24 letters.
#[derive(Drop)]
pub(crate) struct Desk {
    pub(crate) ring: Ring,
    pub(crate) tray: [Letter; 24],
    pub(crate) book: [Command; 64],
    pub(crate) sheets: [u8; 448],
    pub(crate) chooser: FirstCome,
}

// A call on a desk.
#[derive(Clone, Copy)]
pub(crate) enum Call {
    Broadcast(u8, Command),
    Receive(usize),
    Step(u8),
    Crash(u8),
    Lose(usize),
}

// A payment, which conflicts with draws only.
pub(crate) const PAY: Command = Command {
    verb: 1,
    subject: 0,
    day: 0,
    amount: 50,
};

// A draw, which conflicts with every lawful command.
pub(crate) const DRAW: Command = Command {
    verb: 2,
    subject: 0,
    day: 0,
    amount: 50,
};

// A command that no kitty takes.
pub(crate) const UNLAWFUL: Command = Command {
    verb: 9,
    subject: 0,
    day: 0,
    amount: 1,
};

// The number of a refusal, and 0 for an accepted call.
// Stays a number: the tables of calls and numbers read 0 for an accepted call.
pub(crate) fn number_of<T: Drop>(answer: Result<T, Refusal>) -> u8 {
    match answer {
        Ok(_) => 0,
        Err(refusal) => refusal.number(),
    }
}

impl Desk {
    // Before the first start.
    pub(crate) fn new() -> Desk {
        Desk {
            ring: Ring::new(),
            tray: [Letter::default(); 24],
            book: [UNLAWFUL; 64],
            sheets: [7; 448],
            chooser: FirstCome::new(),
        }
    }

    // After the start of a ring of n nodes with quorum q.
    pub(crate) fn started(n: u16, q: u16) -> Result<Desk, Refusal> {
        let size = RingSize::new(n, q)?;
        let mut desk = Desk::new();
        desk.start(size)?;
        Ok(desk)
    }

    pub(crate) fn start(&mut self, size: RingSize) -> Result<(), Refusal> {
        self.ring.start(
            &mut self.tray,
            &mut self.book,
            &mut self.sheets,
            &self.chooser,
            size,
        )
    }

    // Makes the call, and answers its number.
    pub(crate) fn call(&mut self, call: Call) -> u8 {
        let Desk {
            ring,
            tray,
            book,
            sheets,
            chooser,
        } = self;
        match call {
            Call::Broadcast(node, command) => {
                number_of(ring.broadcast::<Kitty>(tray, book, sheets, node, command))
            }
            Call::Receive(place) => number_of(ring.receive(tray, book, sheets, place)),
            Call::Step(node) => number_of(ring.step::<Kitty, FirstCome>(
                tray, book, sheets, chooser, node,
            )),
            Call::Crash(node) => number_of(ring.crash(node)),
            Call::Lose(place) => number_of(ring.lose(tray, book, sheets, place)),
        }
    }

    // The messages that a node delivered.
    pub(crate) fn sheet(&self, node: u8) -> Result<&[u8], Refusal> {
        self.ring.show(&self.tray, &self.book, &self.sheets, node)
    }

    // Brings a record up to date with a node's sheet.
    pub(crate) fn catch_up<R: Record>(
        &self,
        held: &mut R,
        node: u8,
        mark: usize,
    ) -> Result<usize, Refusal> {
        self.ring
            .catch_up(&self.tray, &self.book, &self.sheets, held, node, mark)
    }
}

// Makes each call, and sees that it answers its number.
pub(crate) fn check_calls(rt: &impl Abort, desk: &mut Desk, cases: &[(Call, u8)]) {
    for (call, number) in cases {
        assert_eq!(rt; desk.call(*call), *number);
    }
}

// Makes the calls, and sees that all answer one number.
pub(crate) fn check_all(rt: &impl Abort, desk: &mut Desk, calls: &[Call], number: u8) {
    for call in calls {
        assert_eq!(rt; desk.call(*call), number);
    }
}
