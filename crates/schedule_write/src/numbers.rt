ghost use Rattle.std.specs.Prelude.{◌≡◌, ◌<◌, ◌≤◌, true, false, length, MatchResult, OnOk, [], ◌∷◌};
ghost use Rattle.schedule.specs.Drafts.{fields, numbers_of, raised, spelled, within, InRange};
ghost use Rattle.schedule.specs.Kinds.{number_of_kind};
ghost use Rattle.schedule_write.specs.Outcomes.{list_of};

use crate::group::group_count;
use crate::refusal::WriteRefusal;
use record::command::Command;
use schedule::draft::Draft;
use schedule::kind::EntryKind;

// The numbers of an entry.
#[derive(Clone, Copy)]
pub(crate) enum Numbers {
    Two([u16; 2]),
    Seven([u16; 7]),
}

impl Numbers {
    // All of them, in order.
    pub(crate) fn as_slice(&self) -> &[u16]
        ensures { result.now ≡ list_of self.now }
    {
        match self {
            Numbers::Two(numbers) => numbers,
            Numbers::Seven(numbers) => numbers,
        }
    }
}

// The number from 0 on that an amount is written as.
fn raised(amount: i16) -> u16
    ensures { result ≡ raised amount }
{
    32_768_u16.saturating_add_signed(amount)
}

// The four numbers of a command.
fn fields(command: Command) -> [u16; 4]
    ensures { result ≡ fields command }
{
    [
        u16::from(command.verb),
        command.subject,
        command.day,
        raised(command.amount),
    ]
}

// How many bytes the numbers take.
pub(crate) fn size_of(numbers: &[u16]) -> usize
    requires { length numbers.now ≤ 7 }
    ensures { result ≡ length (spelled numbers.now) }
{
    numbers.iter().map(|value| group_count(*value)).sum()
}

// A number within its limit.
fn limited(value: usize, limit: u16) -> Result<u16, WriteRefusal>
    ensures { MatchResult result
        (λ v. (v ≡ value) × (value ≤ limit))
        (λ f. (limit < value) × (f ≡ WriteRefusal.NumberAboveLimit)) }
{
    u16::try_from(value)
        .ok()
        .filter(|value| *value <= limit)
        .ok_or(WriteRefusal::NumberAboveLimit)
}

// The number of a kind, and the one that follows it.
fn single(kind: EntryKind, value: usize, limit: u16) -> Result<Numbers, WriteRefusal>
    ensures { MatchResult result
        (λ t. (value ≤ limit) × (list_of t ≡ number_of_kind kind ∷ value ∷ []))
        (λ f. (limit < value) × (f ≡ WriteRefusal.NumberAboveLimit)) }
{
    Ok(Numbers::Two([kind.into(), limited(value, limit)?]))
}

// The numbers of an entry.
pub(crate) fn numbers_of(draft: Draft) -> Result<Numbers, WriteRefusal>
    ensures value { MatchResult result
        (λ t. (within draft ≡ true) × (list_of t ≡ numbers_of draft))
        (λ f. (within draft ≡ false) × (f ≡ WriteRefusal.NumberAboveLimit)) }
    ensures range { OnOk result (InRange draft) }
{
    match draft {
        Draft::Broadcast { node, command } => {
            let node = limited(node, 255)?;
            let body = fields(command);
            let size = size_of(&body) as u16;
            let [verb, subject, day, amount] = body;
            Ok(Numbers::Seven([
                EntryKind::Broadcast.into(),
                node,
                size,
                verb,
                subject,
                day,
                amount,
            ]))
        }
        Draft::Receive { place } => single(EntryKind::Receive, place, u16::MAX),
        Draft::Step { node } => single(EntryKind::Step, node, 255),
        Draft::Crash { node } => single(EntryKind::Crash, node, 255),
        Draft::Lose { place } => single(EntryKind::Lose, place, u16::MAX),
    }
}
