//! Repositories that consist of a few lists, read from texts.
#![tactic(auto)]

mod drafts;
mod packs;
mod repository_lines;
mod repository_progress;
mod repository_reader;
mod repository_text;
pub mod repository_text_laws;
mod text_faults;

pub use packs::Packs;
pub use repository_reader::RepositoryReader;
pub use repository_text::read_repo;
pub use text_faults::{LONGEST_LINE, LineFault, TextFault};
