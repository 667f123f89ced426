//! Tests of sizes, placement and relaxation by their own calls: what comes into parts, where it stands, and what is deleted of it. There is
//! nothing else here.
#![tactic(auto)]

#[cfg(test)]
mod placement;
#[cfg(test)]
mod relaxed;
#[cfg(test)]
mod rows;
#[cfg(test)]
mod sizes;
