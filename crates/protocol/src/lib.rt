//! A protocol for Generic Broadcast: nodes of a ring broadcast messages and deliver them, and only messages that conflict have
//! to be delivered in one order. The crate runs nothing: its functions stand for theorems, which are their contracts.
//! `specs` says what a ring, its calls and its runs are, and what every run promises; `proofs` proves it.
#![tactic(auto)]

ghost use Rattle.protocol.specs.Promises.{RunsAreSound};
ghost use Rattle.protocol.specs.Orderly.{CallsAreOrderly};
ghost use Rattle.protocol.specs.Progress.{RunsCanGoOn, QuietIsRest};
ghost use Rattle.protocol.specs.Witnesses.{ARunDeliversEarly, ARunSettles, ARunHasTwoOrders, ARunOutlivesACrash};

// Whatever calls a run makes from the start on, it comes to a state that keeps every promise.
#[tactic(auto, using(crate::proofs::Promises::runs_are_sound))]
pub fn runs_are_sound()
    ensures { RunsAreSound }
{}

// No call of a run takes back what was delivered, decided, taken or lost, and each is made by a node that may make it.
#[tactic(auto, using(crate::proofs::Orderly::calls_are_orderly))]
pub fn calls_are_orderly()
    ensures { CallsAreOrderly }
{}

// Whatever state a run comes to, each call that its nodes and letters allow can be made.
#[tactic(auto, using(crate::proofs::Progress::runs_can_go_on))]
pub fn runs_can_go_on()
    ensures { RunsCanGoOn }
{}

// A ring that a run comes to is quiet just if enough nodes live and no call does anything new.
#[tactic(auto, using(crate::proofs::Resting::quiet_is_rest))]
pub fn quiet_is_rest()
    ensures { QuietIsRest }
{}

// There is a run in which a node delivers a message ahead of any decision.
#[tactic(auto, using(crate::proofs::Witnesses::delivers_early))]
pub fn a_run_delivers_early()
    ensures { ARunDeliversEarly }
{}

// There is a run in which a node closes a stage over two conflicting messages and settles it by a decision.
#[tactic(auto, using(crate::proofs::Witnesses::settles_by_decision))]
pub fn a_run_settles()
    ensures { ARunSettles }
{}

// There is a run in which two nodes deliver two messages that do not conflict in different orders.
#[tactic(auto, using(crate::proofs::Witnesses::delivers_in_two_orders))]
pub fn a_run_has_two_orders()
    ensures { ARunHasTwoOrders }
{}

// There is a run in which a node crashes, a letter to it is lost, and another node delivers early and settles a stage.
#[tactic(auto, using(crate::proofs::WitnessCrash::outlives_a_crash))]
pub fn a_run_outlives_a_crash()
    ensures { ARunOutlivesACrash }
{}
