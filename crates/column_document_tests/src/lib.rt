//! Calls of `column_document` against what was written down by hand.
#![tactic(auto)]

#[cfg(test)]
mod checks;
#[cfg(test)]
mod tests;
