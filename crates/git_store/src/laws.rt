//! What follows for a session of a host's server if its store has what one repository has.

ghost use Rattle.std.specs.Prelude.{◌≡◌, ◌⊎◌, ℕ, Bool, List, [], false};
ghost use Rattle.git_names.specs.declared.object_format.Format.{Format};
ghost use Rattle.git_pkt.specs.Packets.{Pkt};
ghost use Rattle.git_msg.specs.Asked.{Asked};
ghost use Rattle.git_server.specs.Repository.{Repository};
ghost use Rattle.git_host.specs.HostSessions.{AreAnswersBy, EndsByHost, Facts, HostSetting, IsHosted};
ghost use Rattle.git_store.specs.HostedRepository.{AllOfRepository, EndsWell, HasWhatIsBegun, IsCutBeforePack, IsLackedByRepository};
ghost use Rattle.git_store.specs.HostedRepository.{IsLostOfRepository, IsReportedBy, IsReportedUpTo, RefusesAtItsLine, over_repository};
ghost use Rattle.git_store.specs.RepositoryRuns.{ServesRepository};
ghost use Rattle.git_store.specs.StoreMoves.{Move, facts_after, given_in, over_after, used_in};
ghost use Rattle.git_server.specs.Sessions.{AreAnswers, IsSession};
ghost use Rattle.git_server.specs.declared.outcome.Outcome.{Outcome};
ghost use Rattle.git_server.specs.declared.outcome.Outcome.TheVariants.{Refused};
ghost use Rattle.git_pkt.specs.declared.fault.Fault.{Fault};
ghost use Rattle.git_pkt.specs.declared.fault.Kind.TheVariants.{PackSource};
ghost use Rattle.git_host.specs.HostServer.{is_of_host};

use crate::repo_store::RepoStore;
use git_host::HostServer;
use git_server::Repo;
use std::alloc::Allocator;

/// If what was reported for each request of a session is what one repository answers, what was sent for them are answers of that repository,
/// in their order: as a server over the repository gives them.
pub fn session_answers_are_a_repositorys()
    ensures { (format : Format) (repo : Repository) (asked : List Asked) (reported : List Facts) (packets : List Pkt)
        → AllOfRepository repo asked reported → AreAnswersBy format asked reported packets → AreAnswers repo asked packets }
{}

/// And if the session ended well, by the flush of a client that leaves or since the input ended between two requests, it is a session of a server
/// over that repository: for the same bytes, with the same output.
pub fn session_is_a_repositorys()
    ensures { (s : HostSetting) (repo : Repository) (failures : ℕ) (used : List ℕ) (over : Bool) (reported : List Facts) (given : List ℕ)
        (outcome : Outcome) → IsReportedBy s repo used reported → EndsWell outcome → IsHosted s used over reported given outcome
        → IsSession (over_repository s repo failures) used over given outcome }
{}

/// A session whose input was refused is one of a server over that repository too, for the same bytes with the same output and outcome, if the
/// repository has whatever the request at which the input broke off wants. Where it lacks some of that, such a server refuses it at its line.
pub fn refused_session_is_a_repositorys()
    ensures { (s : HostSetting) (repo : Repository) (failures : ℕ) (used : List ℕ) (over : Bool) (reported : List Facts) (given : List ℕ)
        (fault : Fault) → IsReportedBy s repo used reported → HasWhatIsBegun s repo used → is_of_host fault.kind ≡ false
        → IsHosted s used over reported given (Refused fault) → IsSession (over_repository s repo failures) used over given (Refused fault) }
{}

/// And so is one that ended since a pack could not be had, unless the last answer was cut short before its pack began, which no such server does.
pub fn lost_pack_is_a_repositorys()
    ensures { (s : HostSetting) (repo : Repository) (failures : ℕ) (used : List ℕ) (over : Bool) (reported : List Facts) (given : List ℕ)
        (fault : Fault) → IsReportedUpTo (IsLostOfRepository repo) s repo used reported → fault.kind ≡ PackSource
        → IsHosted s used over reported given (Refused fault)
        → IsSession (over_repository s repo failures) used over given (Refused fault) ⊎ IsCutBeforePack s used reported given fault }
{}

/// And where the store lacks what the last request wants, such a server refuses a line of it: up to there its session is the same, and the error
/// packet names that line and what it wants. A host refuses the request at its flush, by the first object that it lacks, or else the first
/// reference.
pub fn lacking_request_is_refused_at_its_line()
    ensures { (s : HostSetting) (repo : Repository) (failures : ℕ) (used : List ℕ) (reported : List Facts) (given : List ℕ) (fault : Fault)
        → IsReportedUpTo (IsLackedByRepository repo fault.kind) s repo used reported → EndsByHost s used false reported given (Refused fault)
        → RefusesAtItsLine (over_repository s repo failures) used given fault }
{}

/// What a `RepoStore` replies is what its repository answers, but for its packs. So if a session over one ended well, then all that was reported
/// is what the repository answers that has for each request the pack that was reported, and the session is one of a server over it.
pub fn store_session_is_a_repositorys<R: Repo, P, A: Allocator + Copy>()
    ensures reported { (s : HostSetting) (repo : Repository) (moves : List Move) (outcome : Outcome) (first : HostServer A) (store : RepoStore R P)
        (last : HostServer A) (left : RepoStore R P) → ServesRepository R.state s repo moves outcome first store last left
        → IsReportedBy s repo (used_in moves) (facts_after [] moves) }
    ensures session { (s : HostSetting) (repo : Repository) (failures : ℕ) (moves : List Move) (outcome : Outcome) (first : HostServer A)
        (store : RepoStore R P) (last : HostServer A) (left : RepoStore R P) → ServesRepository R.state s repo moves outcome first store last left
        → IsSession (over_repository s repo failures) (used_in moves) (over_after false moves) (given_in moves) outcome }
{}
