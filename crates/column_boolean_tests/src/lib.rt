//! Calls of `column_boolean` against lists that were written down by hand.
#![tactic(auto)]

#[cfg(test)]
mod checks;
#[cfg(test)]
mod tests;
