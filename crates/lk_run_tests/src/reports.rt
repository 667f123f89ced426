//! Runs by reports, where things stand: descriptions in, reports and texts of refusals out.

mod lines;
mod partial;
mod placements;
mod relaxed;
mod tabled;
mod thunks;
