// Schedules by example, with bytes worked out by hand.
#![tactic(auto)]

#[cfg(test)]
mod faults;
#[cfg(test)]
mod headers;
#[cfg(test)]
mod reading;
#[cfg(test)]
mod writing;
