ghost use Rattle.std.specs.Prelude.{◌≡◌, ◌^◌, nat_le};
ghost use Rattle.rows.specs.Letters.{acknowledgement, check_letter, data_letter, letter_of, spoilt};
ghost use Rattle.rows.specs.Letters.{kind_number, mark_number, IsKind};

use record::record_kind::NoSuchKind;

// The kinds of letters, by the numbers that letters have for them.
#[derive(Clone, Copy, Debug, PartialEq, Eq)]
pub enum LetterKind {
    Data = 1,
    Acknowledgement = 2,
    Check = 3,
}

// The marks of letters: of an empty place, of a letter under way, and of one that its receiver took or a crash lost.
#[derive(Clone, Copy, Debug, Default, PartialEq, Eq)]
pub enum Mark {
    #[default]
    Empty = 0,
    Travelling = 1,
    Taken = 2,
    Lost = 3,
}

// The numbers of the kinds.
pub const DATA: u8 = LetterKind::Data as u8;

pub const ACKNOWLEDGEMENT: u8 = LetterKind::Acknowledgement as u8;

pub const CHECK: u8 = LetterKind::Check as u8;

// The numbers of the marks.
pub const EMPTY: u8 = Mark::Empty as u8;

pub const TRAVELLING: u8 = Mark::Travelling as u8;

pub const TAKEN: u8 = Mark::Taken as u8;

pub const LOST: u8 = Mark::Lost as u8;

impl From<LetterKind> for u8 {
    ghost from_gives = { λ k r. r ≡ kind_number k };

    fn from(kind: LetterKind) -> u8 {
        kind as u8
    }
}

impl TryFrom<u8> for LetterKind {
    type Error = NoSuchKind;

    ghost try_from_gives = { IsKind };

    fn try_from(number: u8) -> Result<LetterKind, NoSuchKind> {
        match number {
            DATA => Ok(LetterKind::Data),
            ACKNOWLEDGEMENT => Ok(LetterKind::Acknowledgement),
            CHECK => Ok(LetterKind::Check),
            _ => Err(NoSuchKind(u16::from(number))),
        }
    }
}

impl From<Mark> for u8 {
    ghost from_gives = { λ m r. r ≡ mark_number m };

    fn from(mark: Mark) -> u8 {
        mark as u8
    }
}

// A letter: what one node sends to one node. Data carries one message and has stage 0; an acknowledgement and a check
// carry a set of messages, message m as bit m of a mask, and have the stage of their sender.
// Stays plain numbers: the tray is the caller's and may hold anything, and a letter of no kind is refused as spoilt.
#[derive(Clone, Copy, Debug, Default, PartialEq, Eq)]
pub struct Letter {
    pub sender: u8,
    pub receiver: u8,
    pub kind: u8,
    pub mark: u8,
    pub stage: u32,
    pub set: u64,
}

// Whether the set has a message of this number or a higher one.
fn reaches_beyond(set: u64, messages: u8) -> bool
    ensures { result ≡ nat_le (2 ^ messages) set }
{
    messages < 64 && set >> messages != 0
}

impl Letter {
    // A letter as it is handed in for sending.
    fn of_kind(kind: LetterKind, sender: u8, stage: u32, set: u64) -> Letter
        ensures { result ≡ letter_of sender (kind_number kind) stage set }
    {
        Letter {
            sender,
            receiver: 0,
            kind: kind.into(),
            mark: Mark::Travelling.into(),
            stage,
            set,
        }
    }

    // Data with the one message of the set, as it is handed in for sending.
    pub fn data(sender: u8, set: u64) -> Letter
        ensures { result ≡ letter_of sender data_letter 0 set }
    {
        Letter::of_kind(LetterKind::Data, sender, 0, set)
    }

    // An acknowledgement of the set, as it is handed in for sending.
    pub fn acknowledgement(sender: u8, stage: u32, set: u64) -> Letter
        ensures { result ≡ letter_of sender acknowledgement stage set }
    {
        Letter::of_kind(LetterKind::Acknowledgement, sender, stage, set)
    }

    // A check with the set, as it is handed in for sending.
    pub fn check(sender: u8, stage: u32, set: u64) -> Letter
        ensures { result ≡ letter_of sender check_letter stage set }
    {
        Letter::of_kind(LetterKind::Check, sender, stage, set)
    }

    // Whether no sending in a ring of n nodes and so many messages makes such a letter: its kind is not 1 to 3, its
    // sender or receiver is no node, it has a message not yet broadcast, it is data with a stage or not of one
    // message, or it is of another kind and has stage 0.
    pub fn is_spoilt(self, n: u8, messages: u8) -> bool
        ensures { result ≡ spoilt n messages self }
    {
        let Ok(kind) = LetterKind::try_from(self.kind) else {
            return true;
        };
        if self.sender >= n || self.receiver >= n {
            return true;
        }
        if reaches_beyond(self.set, messages) {
            return true;
        }
        match kind {
            LetterKind::Data => self.stage != 0 || self.set.count_ones() != 1,
            LetterKind::Acknowledgement | LetterKind::Check => self.stage == 0,
        }
    }
}
