//! Tests of `client_core` and `fs_io`.
#![tactic(auto)]

#[cfg(test)]
mod descriptors;
#[cfg(test)]
mod faults;
#[cfg(test)]
mod scripts;
#[cfg(test)]
mod streams;
