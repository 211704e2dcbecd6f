// Inputs of the program `day` and the text that they get, as tests.
#![tactic(auto)]

#[cfg(test)]
mod days;
#[cfg(test)]
mod headers;
#[cfg(test)]
mod helpers;
#[cfg(test)]
mod long;
#[cfg(test)]
mod rings;
#[cfg(test)]
mod sheets;
