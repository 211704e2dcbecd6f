ghost use Rattle.std.specs.Prelude.{◌≡◌};
ghost use Rattle.rows.specs.declared.row.Phase.TheVariants.{Gathering as GatheringPhase};

use crate::member::Member;

// A node that gathers messages and acknowledgements. It is neither copied nor let go: closing uses it up, and so does
// retiring it.
pub struct Gathering {
    pub(crate) member: Member,
    ghost gathers: { member.row.phase ≡ GatheringPhase },
}
