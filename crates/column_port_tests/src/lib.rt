//! Calls of `column_port` against bytes and answers that were written down by hand.
#![tactic(auto)]

#[cfg(test)]
mod checks;
#[cfg(test)]
mod tests;
