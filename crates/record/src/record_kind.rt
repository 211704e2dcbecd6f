ghost use Rattle.std.specs.Prelude.{◌≡◌};
ghost use Rattle.record.specs.RecordKind.{record_kind};

// A number that no kind goes by.
#[derive(Clone, Copy, Debug, PartialEq, Eq)]
pub struct NoSuchKind(pub u16);

// The kinds of record that go by a number.
#[derive(Clone, Copy, Debug, PartialEq, Eq)]
pub enum RecordKind {
    Kitty,
    Rounds,
    Both,
}

impl TryFrom<u16> for RecordKind {
    type Error = NoSuchKind;

    ghost try_from_gives = { λ number r. r ≡ record_kind number };

    fn try_from(number: u16) -> Result<RecordKind, NoSuchKind> {
        match number {
            1 => Ok(RecordKind::Kitty),
            2 => Ok(RecordKind::Rounds),
            3 => Ok(RecordKind::Both),
            _ => Err(NoSuchKind(number)),
        }
    }
}
