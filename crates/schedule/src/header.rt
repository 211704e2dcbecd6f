ghost use Rattle.std.specs.Prelude.{◌≡◌};
ghost use Rattle.record.specs.RecordKind.{record_kind};
ghost use Rattle.schedule.specs.Kinds.{chooser_kind};

use crate::kind::{Kind, NoSuchKind};

// The kinds of record that a day may name.
pub use record::record_kind::RecordKind;

// The kinds of chooser that a day may name.
#[derive(Clone, Copy, Debug, PartialEq)]
pub enum ChooserKind {
    FirstCome,
    LowestOf,
}

// What stands before the entries of a day: nodes, quorum, and what they choose and record by.
#[derive(Clone, Copy, Debug, PartialEq)]
pub struct Header {
    pub n: u16,
    pub q: u16,
    pub chooser: ChooserKind,
    pub record: RecordKind,
}

impl TryFrom<u16> for ChooserKind {
    type Error = NoSuchKind;

    ghost try_from_gives = { λ number r. r ≡ chooser_kind number };

    fn try_from(number: u16) -> Result<ChooserKind, NoSuchKind> {
        match number {
            1 => Ok(ChooserKind::FirstCome),
            2 => Ok(ChooserKind::LowestOf),
            _ => Err(NoSuchKind(number)),
        }
    }
}

impl Kind for ChooserKind {
    ghost tried = { chooser_kind };

    ghost tries = { λ _ _ e. e };
}

impl Kind for RecordKind {
    ghost tried = { record_kind };

    ghost tries = { λ _ _ e. e };
}
