// Days of a ring that there are, so that no promise and no definition of a day is empty. The crate runs nothing: each
// function stands for a day, which its contract says that there is.
#![tactic(auto)]

ghost use Rattle.exhibited_days.specs.Days.{ADayDeliversEarly, ADaySettles, ADayComesToRest, ADayOutlivesACrash};

// There is a day on which a node delivers a message ahead of any decision.
#[tactic(auto, using(crate::proofs::SmallDays::delivers_early))]
pub fn a_day_delivers_early()
    ensures { ADayDeliversEarly }
{}

// There is a day on which a node closes a stage over two conflicting messages and settles it by the chooser's decision.
#[tactic(auto, using(crate::proofs::SmallDays::settles_by_decision))]
pub fn a_day_settles()
    ensures { ADaySettles }
{}

// There is a day that comes to rest: a message is delivered, and then every receipt and every step would be refused,
// none for a full tray.
#[tactic(auto, using(crate::proofs::SmallDays::comes_to_rest))]
pub fn a_day_comes_to_rest()
    ensures { ADayComesToRest }
{}

// There is a day in a ring of four on which a node crashes and a letter to it is lost, and the other three deliver two
// messages and come to rest; a record that plays one of their sheets is brought up to date after each.
#[tactic(auto, using(crate::proofs::CrashDay::outlives_a_crash))]
pub fn a_day_outlives_a_crash()
    ensures { ADayOutlivesACrash }
{}
