//! Calls of `column_base` against values that were written down by hand.
#![tactic(auto)]

#[cfg(test)]
mod cases;
#[cfg(test)]
mod checks;
#[cfg(test)]
mod push_tests;
#[cfg(test)]
mod pushes;
#[cfg(test)]
mod tests;
