//! Calls of `column_binview` against lists that were written down by hand.
#![tactic(auto)]

#[cfg(test)]
mod builder_cases;
#[cfg(test)]
mod builder_checks;
#[cfg(test)]
mod builder_tests;
#[cfg(test)]
mod cases;
#[cfg(test)]
mod checks;
#[cfg(test)]
mod source_checks;
#[cfg(test)]
mod tests;
