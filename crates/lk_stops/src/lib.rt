//! Walks that stop at the first of some things: the word for what they answer, and lemmas on it. It has no functions.
#![tactic(auto)]
