// Worked examples of the four kinds of record, as tests.
#![tactic(auto)]

#[cfg(test)]
mod closing_book;
#[cfg(test)]
mod helpers;
#[cfg(test)]
mod kitty;
#[cfg(test)]
mod pair;
#[cfg(test)]
mod rounds;
