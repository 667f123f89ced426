//! Maps: which texts are maps, and what is told of those that are.

mod checked;
mod read;
mod rows;
