//! Tests of runs: words and inputs in, texts, reports and statuses out. There is nothing else here.
#![tactic(auto)]

#[cfg(test)]
mod ends;
#[cfg(test)]
mod explained;
#[cfg(test)]
mod faulty;
#[cfg(test)]
mod hostile;
#[cfg(test)]
mod images;
#[cfg(test)]
mod maps;
#[cfg(test)]
mod reports;
#[cfg(test)]
mod rows;
#[cfg(test)]
mod runs;
#[cfg(test)]
mod symbols;
#[cfg(test)]
mod texts;
#[cfg(test)]
mod words;
