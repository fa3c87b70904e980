//! Spaces of documents, and the catalogues that they are read from. It knows no tree, and nothing
//! of what a mount makes of the documents.
#![tactic(auto)]

mod catalogues;
mod documents;
mod entries;
mod faults;
mod files;
mod gathered;
mod gathering;
pub mod laws;
mod memory;
mod numbers;
mod places;
mod spaces;
mod spelled;
mod splitting;
mod texts;
mod word_lists;

pub use catalogues::{CatalogueFault, read_catalogue};
pub use documents::Docs;
pub use faults::{AttachFault, SpaceFault};
pub use files::CatalogueSpaces;
pub use gathering::{GatherFault, gather};
pub use memory::MemorySpaces;
pub use spaces::Spaces;
