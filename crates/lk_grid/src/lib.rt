//! The matrix by which workers merge strings: a cell for each group of inputs and each bucket, in which the group's pieces and the bucket
//! meet. Here stands what may happen, one step at a time and in any order, and what holds behind every list of steps. The cells and
//! buckets of `lk_merge` are these.
#![tactic(auto)]

pub mod laws;
