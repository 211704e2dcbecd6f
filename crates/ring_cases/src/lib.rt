// Worked examples of rings, as tests.
#![tactic(auto)]

#[cfg(test)]
mod desk;
#[cfg(test)]
mod letters;
#[cfg(test)]
mod orders;
#[cfg(test)]
mod refusals;
#[cfg(test)]
mod sizes;
#[cfg(test)]
mod stages;
#[cfg(test)]
mod telling;
