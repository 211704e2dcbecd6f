// Worked cases of sizes, proposals, numbers and records, as one table. The definitions that the contracts of the other
// crates cite make of each case what the table says.
#![tactic(auto)]

ghost use Rattle.std.specs.Prelude.{◌≡◌, true};
ghost use Rattle.std.specs.List.{list_all};
ghost use Rattle.cases.specs.Cases.{holds};
ghost use Rattle.cases.specs.Table.{worked_cases};

#[cfg(test)]
mod proposing;

// Each case of the table comes out as it says.
#[tactic(auto, using(crate::proofs::Worked::worked_out))]
pub fn the_worked_cases_hold()
    ensures { list_all holds worked_cases ≡ true }
{}
