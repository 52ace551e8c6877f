//! Tests of what a task stands on, where no request shows it.
#![tactic(auto)]

#[cfg(test)]
mod attempts;
#[cfg(test)]
mod walks;
