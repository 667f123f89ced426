//! Tests of merging by its own calls, on one thread and by workers. There is nothing else here.
#![tactic(auto)]

#[cfg(test)]
mod made;
#[cfg(test)]
mod merging;
#[cfg(test)]
mod rows;
