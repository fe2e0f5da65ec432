//! Calls of `column_relayout` against lists that were written down by hand.
#![tactic(auto)]

#[cfg(test)]
mod append_tests;
#[cfg(test)]
mod cases;
#[cfg(test)]
mod checks;
#[cfg(test)]
mod conversion_tests;
#[cfg(test)]
mod cut_tests;
#[cfg(test)]
mod gather_tests;
#[cfg(test)]
mod parts_tests;
#[cfg(test)]
mod plan_tests;
#[cfg(test)]
mod rebuild_tests;
