//! The arguments of a request that a repository refuses.

ghost use Rattle.std.specs.Prelude.{◌≡◌};
ghost use Rattle.git_server.specs.Admission.{barred};

use crate::repo::Repo;
use git_msg::{Admits, Argument, ObjectWord, TextWord};
use git_pkt::Kind;

/// A repository that refuses arguments: a want of an object or a reference that it does not have.
#[derive(Drop)]
pub(crate) struct Admission<'r, R> {
    /// The repository that decides.
    pub(crate) repo: &'r R,
}

impl<'r, R: Repo> Admits for Admission<'r, R> {
    ghost refused_as = { λ admission. barred (R.state admission.repo.now).answers };

    fn refusal_of(&self, argument: &Argument<'_>) -> Option<Kind> {
        match argument {
            Argument::Object(ObjectWord::Want, id) => {
                if self.repo.has(id) {
                    return None;
                }
                Some(Kind::NotOurs)
            }
            Argument::Text(TextWord::WantRef, name) => match self.repo.find(name) {
                Some(_) => None,
                None => Some(Kind::UnknownRef),
            },
            _ => None,
        }
    }
}
