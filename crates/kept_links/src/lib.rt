//! A state with its links kept beside it: what directories find and what is lent to them. An event
//! changes the links that it must, and no others are looked at. It knows no command and no path.
#![tactic(auto)]

mod coming;
mod items;
mod linked;
mod news;
mod outlook;
mod sets;
mod tasks;
mod touched;
mod transition;
mod unlinked;

pub use linked::LinkedState;
pub use unlinked::UnlinkedState;
