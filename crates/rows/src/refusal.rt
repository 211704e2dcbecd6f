ghost use Rattle.std.specs.Prelude.{◌≡◌};
ghost use Rattle.rows.specs.Refusals.{number_of, chooser_number_of};
ghost use Rattle.rows.specs.declared.refusal.Refusal.TheVariants.{Chooser};

use chooser::refusal::Refusal as ChooserRefusal;

// Why a call of a ring, or of a node by itself, is turned down.
#[derive(Clone, Copy, Debug, PartialEq, Eq)]
pub enum Refusal {
    // the number of nodes is 0 or above 7
    NodesOutOfRange,
    // the quorum is above the number of nodes
    QuorumTooLarge,
    // three times the quorum is below twice the number of nodes plus 1
    QuorumTooSmall,
    // a table has the wrong size
    WrongTableSize,
    // the chooser's need is above the quorum
    NeedAboveQuorum,
    // a stage of the chooser has a proposal already
    ChooserInUse,
    // the ring was never started
    NotStarted,
    // there is no such node
    NoSuchNode,
    // that node has crashed
    NodeCrashed,
    // the command is unlawful for the kind of record
    UnlawfulCommand,
    // there are 64 messages already
    BookFull,
    // fewer free places in the tray than a sending takes
    TrayFull,
    // the place is not yet used, or beyond the tray
    PlaceUnused,
    // the letter does not travel
    NotTravelling,
    // no sending makes such a letter; or a node by itself is not the one, or the call not the one, that it is for
    SpoiltLetter,
    // the letter's stage is later than its receiver's
    LaterStage,
    // nothing received is left to acknowledge; or a node by itself acknowledges over a conflict, or closes without one
    NothingNew,
    // the node keeps too few checks
    TooFewChecks,
    // the stage is undecided; or a node by itself has not proposed in it
    Undecided,
    // the chooser refuses
    Chooser(ChooserRefusal),
    // neither the sender nor the receiver of the letter has crashed
    NobodyCrashed,
    // the sheet names no broadcast message, or an unlawful command
    Unplayable,
    // the mark is beyond the sheet
    MarkBeyondSheet,
}

// A refusal of the chooser is one of the ring.
impl From<ChooserRefusal> for Refusal {
    ghost from_gives = { λ e r. r ≡ Chooser e };

    fn from(refusal: ChooserRefusal) -> Refusal {
        Refusal::Chooser(refusal)
    }
}

impl Refusal {
    // The number that this refusal goes by.
    // Stays a match: one of the refusals carries another, so no cast gives the number.
    pub fn number(self) -> u8
        ensures { result ≡ number_of self }
    {
        match self {
            Refusal::NodesOutOfRange => 1,
            Refusal::QuorumTooLarge => 2,
            Refusal::QuorumTooSmall => 3,
            Refusal::WrongTableSize => 4,
            Refusal::NeedAboveQuorum => 5,
            Refusal::ChooserInUse => 6,
            Refusal::NotStarted => 7,
            Refusal::NoSuchNode => 8,
            Refusal::NodeCrashed => 9,
            Refusal::UnlawfulCommand => 10,
            Refusal::BookFull => 11,
            Refusal::TrayFull => 12,
            Refusal::PlaceUnused => 13,
            Refusal::NotTravelling => 14,
            Refusal::SpoiltLetter => 15,
            Refusal::LaterStage => 16,
            Refusal::NothingNew => 17,
            Refusal::TooFewChecks => 18,
            Refusal::Undecided => 19,
            Refusal::Chooser(_) => 20,
            Refusal::NobodyCrashed => 21,
            Refusal::Unplayable => 22,
            Refusal::MarkBeyondSheet => 23,
        }
    }

    // The number of the chooser's own refusal: there is one where this refusal goes by 20, and with no other.
    pub fn chooser_number(self) -> Option<u8>
        ensures { result ≡ chooser_number_of self }
    {
        match self {
            Refusal::Chooser(cause) => Some(cause.number()),
            _ => None,
        }
    }
}
