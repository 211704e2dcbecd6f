ghost use Rattle.std.specs.Prelude.{◌≡◌, false};
ghost use Rattle.rows.specs.Receipts.{is_gathering};

use crate::member::Member;

// A node that has closed its stage, and proposes and then waits for the decision. It is neither copied nor let go:
// settling uses it up, and so does retiring it.
pub struct Closing {
    pub(crate) member: Member,
    ghost closed: { is_gathering member.row.phase ≡ false },
}
