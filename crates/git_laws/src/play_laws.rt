//! Laws about plays of both sides against each other.

ghost use Rattle.std.specs.Prelude.{ℕ, ◌≡◌, ◌∷◌, [], All, List, Ok, flat_map, map};
ghost use Rattle.git_msg.specs.Asked.{Asked, HasValues};
ghost use Rattle.git_msg.specs.Machine.HeldRequest.{asked_of, format_of};
ghost use Rattle.git_msg.specs.declared.requests.Request.{Request};
ghost use Rattle.git_client.specs.Events.{pack_bytes};
ghost use Rattle.git_client.specs.Parts.{Terms};
ghost use Rattle.git_client.specs.Transcript.{transcript_of};
ghost use Rattle.git_server.specs.Repository.{IsSound, Repository, RepoState};
ghost use Rattle.git_laws.specs.Plays.{Played};
ghost use Rattle.git_laws.specs.AnnouncedAnswers.{CanBeWritten, answered_pack, announced_all, announced_play};

use std::alloc::Allocator;

/// A play that ended well reports the repository's answers to all requests: its transcript is that of the advertisement and of the
/// answers, however they are cut and whichever packet ends a response, and its packs are those of the answers, one after the other. The only
/// condition on the requests is one that each stored request meets: its values are allowed in a request of its format.
pub fn played_as_answered<A: Allocator + Copy>()
    ensures announced { (now : ℕ) (t : Terms) (limit : ℕ) (state : RepoState) (requests : List (Request A)) (done : Unit {0}) (read given : List (List ℕ))
        → Played now t limit state requests (Ok done) read given
        → IsSound state.answers → CanBeWritten state.answers → state.answers.format ≡ t.format
        → All (λ request. HasValues (format_of request) (asked_of request)) requests
        → let asked = map asked_of requests in
        given ≡ transcript_of asked (announced_play t.format state.answers asked) ∷ pack_bytes (announced_all state.answers asked) ∷ [] }

    // The packs of the answers: a fetch gets the repository's pack if it does not negotiate, or if the repository is ready for it.
    ensures packs { (repo : Repository) (asked : List Asked) → pack_bytes (announced_all repo asked) ≡ flat_map (answered_pack repo) asked }
{}
