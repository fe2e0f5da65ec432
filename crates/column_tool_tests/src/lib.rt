//! Runs over ends that stand in memory: what is answered, with which status, and what is written, against what was
//! written down by hand.
#![tactic(auto)]

#[cfg(test)]
mod checks;
#[cfg(test)]
mod tests;
#[cfg(test)]
mod written_tests;
