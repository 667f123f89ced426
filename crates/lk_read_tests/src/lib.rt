//! Tests of what is read: descriptions, with their check and what is looked up in them, devices, and maps. There is nothing else here.
#![tactic(auto)]

#[cfg(test)]
mod checking;
#[cfg(test)]
mod devices;
#[cfg(test)]
mod look_ups;
#[cfg(test)]
mod maps;
#[cfg(test)]
mod pieces;
#[cfg(test)]
mod plans;
#[cfg(test)]
mod reading;
#[cfg(test)]
mod rows;
#[cfg(test)]
mod shown;
