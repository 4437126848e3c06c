//! Consequences of the definitions of a repository's text alone.

ghost use Rattle.std.specs.Prelude.{◌≡◌, ℕ, List};
ghost use Rattle.git_server.specs.Lists.{Lists};
ghost use Rattle.git_repository.specs.Packs.{PackBytes};
ghost use Rattle.git_repository.specs.RepositoryText.{IsFirstBad, IsRepositoryText};

/// A text is at most one repository.
pub fn one_repository()
    ensures { (text : List ℕ) (packs : PackBytes) (a b : Lists) → IsRepositoryText text packs a → IsRepositoryText text packs b → a ≡ b }
{}

/// A text with a bad line is no repository.
pub fn repository_or_bad()
    ensures { (text : List ℕ) (packs : PackBytes) (lists : Lists) (number : ℕ) → IsRepositoryText text packs lists → IsFirstBad text number → ⊥ }
{}

/// A text has at most one first bad line.
pub fn one_first_bad()
    ensures { (text : List ℕ) (number other : ℕ) → IsFirstBad text number → IsFirstBad text other → number ≡ other }
{}
