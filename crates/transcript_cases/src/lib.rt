// Inputs of `play` and the text that is printed for each, as tests.
#![tactic(auto)]

#[cfg(test)]
mod first_line;
#[cfg(test)]
mod helpers;
#[cfg(test)]
mod kinds;
#[cfg(test)]
mod many_lines;
#[cfg(test)]
mod numbers;
