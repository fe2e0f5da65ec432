//! Calls of `column_rows` against rows and slots that were written down by hand.
#![tactic(auto)]

#[cfg(test)]
mod cases;
#[cfg(test)]
mod checks;
#[cfg(test)]
mod fixed_tests;
#[cfg(test)]
mod tests;
