//! Calls of `column_storage` against lists that were written down by hand.
#![tactic(auto)]

#[cfg(test)]
mod cases;
#[cfg(test)]
mod checks;
#[cfg(test)]
mod tests;
