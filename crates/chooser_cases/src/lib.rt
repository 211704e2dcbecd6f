// Worked examples of the choosers, as tests.
#![tactic(auto)]

#[cfg(test)]
mod another_rule;
#[cfg(test)]
mod first_come;
#[cfg(test)]
mod lowest_of;
#[cfg(test)]
mod refusals;
