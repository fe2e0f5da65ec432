//! Calls of `column_blocks` against buffers and views that were written down by hand.
#![tactic(auto)]

#[cfg(test)]
mod cases;
#[cfg(test)]
mod checks;
#[cfg(test)]
mod tests;
