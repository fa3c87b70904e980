//! Trials of crates below the machine: real files and streams, bytes written by hand, and calls
//! that the program doesn't make, once each with ample memory. It knows no machine and no run,
//! so its proof need not wait for theirs. There is nothing here for other crates.
#![tactic(auto)]

#[cfg(test)]
mod areas;
#[cfg(test)]
mod catalogues;
#[cfg(test)]
mod commands;
#[cfg(test)]
mod files;
#[cfg(test)]
mod gathering;
#[cfg(test)]
mod logs;
#[cfg(test)]
mod names;
#[cfg(test)]
mod payloads;
#[cfg(test)]
mod spaces;
#[cfg(test)]
mod states;
#[cfg(test)]
mod streams;
#[cfg(test)]
mod words;
