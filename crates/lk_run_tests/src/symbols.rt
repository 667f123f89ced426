//! Runs by reports, what is kept and what symbols stand for: descriptions in, reports and texts of refusals out.

mod commons;
mod groups;
mod merged_links;
mod own_symbols;
mod reach;
