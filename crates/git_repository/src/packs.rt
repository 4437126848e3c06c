//! The packs of a repository that is read from a text.

use git_server::Pack;

/// The packs that a repository sends for requests: no line of its text contains them.
#[derive(Debug, Drop)]
pub struct Packs {
    /// The pack for each request, except for those that get `filtered`.
    pub pack: Pack,
    /// The pack for each request that has a filter, if that is a different one.
    pub filtered: Option<Pack>,
}
