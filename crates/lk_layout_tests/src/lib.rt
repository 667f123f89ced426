//! Tests of layouts by their own calls. There is nothing else here.
#![tactic(auto)]

#[cfg(test)]
mod files;
#[cfg(test)]
mod layout;
#[cfg(test)]
mod lent;
#[cfg(test)]
mod queries;
#[cfg(test)]
mod rows;
#[cfg(test)]
mod writer;
