// Worked examples of one node by itself, and of a server that runs it, as tests.
#![tactic(auto)]

#[cfg(test)]
mod desk;
#[cfg(test)]
mod letters;
#[cfg(test)]
mod refusals;
#[cfg(test)]
mod server;
#[cfg(test)]
mod stages;
