//! Layouts, pieces and owners on numbers that were worked out by hand.
#![tactic(auto)]

#[cfg(test)]
mod tests;
