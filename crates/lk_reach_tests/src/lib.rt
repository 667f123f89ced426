//! Tests of what is reached, by the calls of the crates that tell it: what is kept and why, and which branches reach by which thunks. There
//! is nothing else here.
#![tactic(auto)]

#[cfg(test)]
mod paths;
#[cfg(test)]
mod rows;
#[cfg(test)]
mod thunks;
#[cfg(test)]
mod traversal;
