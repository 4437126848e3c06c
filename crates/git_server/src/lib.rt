//! The server's side of Git's wire protocol version 2: a repository as the protocol sees it, and the
//! state machine that reads requests and returns answers.
#![tactic(auto)]

mod acknowledgments;
mod admission;
mod advertisement;
mod answer;
mod entry;
mod entry_lines;
mod faulty;
mod fetching;
mod growths;
mod late_repo;
pub mod laws;
mod list_repo;
mod ls_refs;
mod machine;
mod object_info;
mod one_request;
mod outcome;
mod pack;
mod pack_sources;
mod packets;
mod packfile;
mod pending;
mod refusal;
mod repo;
mod repo_memory;
mod run;
mod sections;
mod server;
mod shallow_info;
mod shared_repo;
mod wanted_refs;

pub use advertisement::put_advertisement;
pub use entry::RefEntry;
pub use entry_lines::{asks_for_unborn, entry_line, unborn_line};
pub use faulty::Faulty;
pub use late_repo::LateRepo;
pub use list_repo::{ListRepo, RepoFault, RepoLists};
pub use one_request::take_request;
pub use outcome::Outcome;
pub use pack::Pack;
pub use pending::write_pending;
pub use repo::{PackFault, Repo};
pub use repo_memory::{RepoMemory, copy_text};
pub use run::serve;
pub use server::{Pulled, Server};
pub use shared_repo::SharedRepo;
