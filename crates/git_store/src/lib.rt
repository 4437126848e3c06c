//! A host's own store that replies at once: a session over it that goes on by itself, and what follows where it is that of a repository.
#![tactic(auto)]

mod asking;
mod hosted;
pub mod laws;
mod machine;
mod repo_store;
mod store;
mod store_run;

pub use hosted::Hosted;
pub use repo_store::RepoStore;
pub use store::{Listed, Part, Store, StoreFault};
pub use store_run::serve_store;
