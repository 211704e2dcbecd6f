ghost use Rattle.std.specs.List.{list_any};
ghost use Rattle.std.specs.Prelude.{◌≡◌, ◌<◌, ◌==◌, slice_index};
ghost use Rattle.rows.specs.Masks.{put, members};
ghost use Rattle.rows.specs.Rows.{on_sheet, sheet_end};
ghost use Rattle.rows.specs.Receipts.{heard_from, after_check, after_hearing, newly, taken_row, taken_sheets};
ghost use Rattle.rows.specs.Receipts.{from_another, relays};

use crate::letter::{Letter, LetterKind};
use crate::mask::{MOST_MESSAGES, extend_sheet, has_bit, is_within, without};
use crate::row::{Check, Phase, Row};
use crate::size::RingSize;
use crate::tally::reached_by;

// Notes the sender as heard for each message of the set.
fn hear(heard: &mut [u8; 64], sender: u8, set: u64)
    requires { sender < 8 }
    ensures { heard.new ≡ heard_from heard.old sender set 64 }
{
    // Stays a cast: with (0..MOST_MESSAGES).zip(heard.iter_mut()) it stayed open that the places given out so far,
    // written back, are `heard_from`.
    for (m, nodes) in heard.iter_mut().enumerate() {
        if has_bit(set, m as u8) {
            *nodes |= 1u8 << sender;
        }
    }
}

// Whether one of the checks is from the sender.
fn has_check(checks: &[Check], sender: u8) -> bool
    ensures { result ≡ list_any (λ c. c.sender == sender) checks.now }
{
    checks.iter().any(|c| c.sender == sender)
}

// The node that broadcast the message.
fn broadcaster_of(broadcasters: &[u8], m: u8) -> u8
    ensures { result ≡ slice_index broadcasters.now m }
{
    broadcasters
        .get(usize::from(m))
        .copied()
        .unwrap_or_default()
}

// Whether the set has a message that another node broadcast.
fn is_from_another(broadcasters: &[u8], node: u8, set: u64) -> bool
    ensures { result ≡ from_another broadcasters.now node set }
{
    (0..MOST_MESSAGES).any(|m| has_bit(set, m) && broadcaster_of(broadcasters, m) != node)
}

impl Row {
    // Whether a letter to this node has to be relayed: it is data, new to this node and not broadcast by it.
    pub fn must_relay(&self, broadcasters: &[u8], letter: Letter) -> bool
        ensures { result ≡ relays broadcasters.now self.now letter }
    {
        LetterKind::try_from(letter.kind) == Ok(LetterKind::Data)
            && !is_within(letter.set, self.received)
            && is_from_another(broadcasters, letter.receiver, letter.set)
    }

    // Keeps the check of a letter while there are fewer than q and none from its sender.
    #[tactic(auto, using(crate::proofs::Receiving::from_first))]
    fn keep_check(&mut self, size: RingSize, letter: Letter)
        ensures { self.new ≡ after_check size.q letter self.old }
    {
        let kept = usize::from(self.checked);
        if self.checked < size.q && !has_check(&self.checks[..kept], letter.sender) {
            self.checks[kept] = Check {
                sender: letter.sender,
                set: letter.set,
            };
            self.checked += 1;
        }
    }

    // Hears an acknowledgement, and delivers early what q nodes have now acknowledged.
    fn hear_acknowledgement(&mut self, q: u8, letter: Letter, sheets: &mut [u8], at: u8)
        requires { letter.sender < 8 }
        ensures row { self.new ≡ after_hearing q letter self.old }
        ensures sheet { sheets.new ≡
            put sheets.old (sheet_end at self.old) (members (newly q letter self.old) 64) }
    {
        hear(&mut self.heard, letter.sender, letter.set);
        let known = self.delivered | self.early;
        let fresh = without(reached_by(&self.heard, q), known);
        extend_sheet(sheets, at, known, fresh);
        self.early |= fresh;
    }

    // What a letter does to the row of its receiver, and to its sheet, which begins at place 64 `at` of the sheets.
    pub fn take(&mut self, size: RingSize, letter: Letter, sheets: &mut [u8], at: u8)
        ensures row { self.new ≡ taken_row size.n size.q letter self.old }
        ensures sheet { sheets.new ≡
            taken_sheets size.n size.q letter self.old at sheets.old }
    {
        match (LetterKind::try_from(letter.kind), self.phase) {
            (Ok(LetterKind::Data), _) => self.received |= letter.set,
            (Ok(LetterKind::Acknowledgement), Phase::Gathering | Phase::Ahead)
                if letter.stage == self.stage && letter.sender < size.n => {
                self.hear_acknowledgement(size.q, letter, sheets, at)
            }
            (Ok(LetterKind::Check), _) if letter.stage == self.stage => {
                self.keep_check(size, letter)
            }
            _ => {}
        }
    }
}
