ghost use Rattle.chooser.specs.Laws.{DecisionsStay, EnoughDecides, NeedStays, PairsAsGiven};
ghost use Rattle.chooser.specs.LowestOf.{LowestDecides, LowestIsLowest};

// What holds of every chooser over any list of proposals: its need and its decisions stay, and a stage with enough
// proposals is decided; and the pair of a proposal is the pair that was given.
#[tactic(auto, using(crate::proofs::Standing::standing))]
pub fn decisions_stand()
    ensures need { NeedStays }
    ensures stay { DecisionsStay }
    ensures decide { EnoughDecides }
    ensures given { PairsAsGiven }
{}

// What the rule of Lowest-of comes to: its place is that of the lowest node, and so it decides by the lowest of the first.
#[tactic(auto, using(crate::proofs::Lowest::lowest_is_lowest, crate::proofs::Lowest::lowest_decides))]
pub fn lowest_is_lowest()
    ensures place { LowestIsLowest }
    ensures decides { LowestDecides }
{}
