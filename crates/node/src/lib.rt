// One node by itself, for a server that runs one node and not a ring: the states that the protocol gives a node are
// types, so that the build turns away what the protocol forbids. The rules are those of a ring's rows.
#![tactic(auto)]

pub mod closing;
pub mod closing_node;
pub(crate) mod deciding;
pub mod gathering;
pub mod gathering_node;
pub mod handover;
pub(crate) mod member;
pub(crate) mod showing;
pub(crate) mod stepping;
pub mod tables;
pub(crate) mod taking;
