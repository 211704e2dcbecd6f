ghost use Rattle.std.specs.Prelude.{◌≡◌, ℕ, Result};
ghost use Rattle.record.specs.declared.record_kind.NoSuchKind.{NoSuchKind};
ghost use Rattle.schedule.specs.Kinds.{entry_kind, number_of_kind};

// A number that no kind goes by.
pub use record::record_kind::NoSuchKind;

// What goes by a number: one function says which number is which.
pub trait Kind: TryFrom<u16, Error = NoSuchKind> {
    ghost tried: { ℕ → Result Self NoSuchKind };

    ghost tries: { (number : ℕ) (r : Result Self NoSuchKind) → Self.try_from_gives number r → r ≡ tried number };
}

// The kinds of entry of a schedule.
#[derive(Clone, Copy, Debug, PartialEq)]
pub enum EntryKind {
    Broadcast = 1,
    Receive = 2,
    Step = 3,
    Crash = 4,
    Lose = 5,
}

// The numbers of the kinds.
const BROADCAST: u16 = EntryKind::Broadcast as u16;

const RECEIVE: u16 = EntryKind::Receive as u16;

const STEP: u16 = EntryKind::Step as u16;

const CRASH: u16 = EntryKind::Crash as u16;

const LOSE: u16 = EntryKind::Lose as u16;

impl TryFrom<u16> for EntryKind {
    type Error = NoSuchKind;

    ghost try_from_gives = { λ number r. r ≡ entry_kind number };

    fn try_from(number: u16) -> Result<EntryKind, NoSuchKind> {
        match number {
            BROADCAST => Ok(EntryKind::Broadcast),
            RECEIVE => Ok(EntryKind::Receive),
            STEP => Ok(EntryKind::Step),
            CRASH => Ok(EntryKind::Crash),
            LOSE => Ok(EntryKind::Lose),
            _ => Err(NoSuchKind(number)),
        }
    }
}

// The number that a kind of entry goes by.
impl From<EntryKind> for u16 {
    ghost from_gives = { λ kind number. number ≡ number_of_kind kind };

    fn from(kind: EntryKind) -> u16 {
        kind as u16
    }
}

impl Kind for EntryKind {
    ghost tried = { entry_kind };

    ghost tries = { λ _ _ e. e };
}
