//! The slot machine by which workers are to walk what is reached: each group of files has a state and a slot, and hands on to
//! others what belongs to them. Here stands what may happen, one step at a time and in any order, and what holds behind every
//! list of steps. `lk_slot_link` says what that means of a link, and `lk_workers` of its calls which of these steps they take.
#![tactic(auto)]

pub mod laws;
