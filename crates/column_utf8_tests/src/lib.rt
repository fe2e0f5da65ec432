//! Calls of `column_utf8` against lists that were written down by hand.
#![tactic(auto)]

#[cfg(test)]
mod builder_checks;
#[cfg(test)]
mod builder_tests;
#[cfg(test)]
mod cases;
#[cfg(test)]
mod checks;
#[cfg(test)]
mod item_checks;
#[cfg(test)]
mod readme;
#[cfg(test)]
mod tests;
#[cfg(test)]
mod value_checks;
