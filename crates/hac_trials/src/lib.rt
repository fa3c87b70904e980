//! Trials of what no transcript can say: devices and spaces that fail, scripts that come in pieces,
//! which events of a log can happen, and checkpoints that are stopped. The trials of the crates
//! below the machine have a crate of their own. There is nothing here for other crates.
#![tactic(auto)]

#[cfg(test)]
mod checkpoints;
#[cfg(test)]
mod devices;
#[cfg(test)]
mod replays;
#[cfg(test)]
mod runs;
#[cfg(test)]
mod spaces;
#[cfg(test)]
mod stores;
