//! Laws about a server and a client that send their bytes to each other, whoever calls them.

ghost use Rattle.std.specs.Prelude.{ℕ, ◌≡◌, ◌⊎◌, ◌++◌, ◌∷◌, [], All, List, None, Some, false, true};
ghost use Rattle.git_names.specs.declared.object_format.Format.{Format};
ghost use Rattle.git_pkt.specs.declared.fault.Fault.{Fault};
ghost use Rattle.git_pkt.specs.declared.fault.Kind.TheVariants.{StreamTooLong, Truncated};
ghost use Rattle.git_msg.specs.Asked.{HasValues};
ghost use Rattle.git_client.specs.Events.{EventValue};
ghost use Rattle.git_client.specs.Machine.Client.{Converses, fault_of, has_left, nothing_yet};
ghost use Rattle.git_client.specs.declared.client.Client.{Client};
ghost use Rattle.git_server.specs.Machine.Server.{IsPackLost, Running, outcome_of};
ghost use Rattle.git_server.specs.Repository.{IsSound, RepoState};
ghost use Rattle.git_server.specs.declared.server.Server.{Server};
ghost use Rattle.git_laws.specs.BothEnds.{BothEnds, CanGoOn, EitherCall, HasRefused, HaveMet, Moves, history_of, terms_with};
ghost use Rattle.git_laws.specs.Plays.{setting_of};
ghost use Rattle.git_laws.specs.AnnouncedAnswers.{CanBeWritten, announced_play};

use git_msg::Memory;
use git_server::Repo;

/// A new server and a new client have met. They have still met after one more call of either, which takes its bytes from one queue and
/// appends bytes to the other. So a law about a server and a client that have met covers any calls that a program makes.
pub fn ends_meet_call_by_call<R: Repo, A: Memory + Copy>()
    ensures none { (format : Format) (limit : ℕ) (before : RepoState) (server : Server R A) (client : Client A)
        → IsSound before.answers → CanBeWritten before.answers → before.answers.format ≡ format
        → Running R.state (setting_of (terms_with format) limit before true) [] false [] server → Converses (terms_with format) nothing_yet client
        → HaveMet R.state A.refuses format limit before [] (record { server = server; client = client; to_server = []; to_client = [] }) }
    ensures more { (format : Format) (limit : ℕ) (before : RepoState) (calls : List (EitherCall A)) (call : EitherCall A) (now next : BothEnds R A)
        → HaveMet R.state A.refuses format limit before calls now → Moves R.state A.refuses call now next
        → All (HasValues format) (history_of (calls ++ call ∷ [])).asked → HaveMet R.state A.refuses format limit before (calls ++ call ∷ []) next }
{}

/// Neither side waits for the other. Take any calls of a server and a client, with any chunks and in any order. Unless a pack was lost, the
/// events that the client has returned are the first events of the advertisement and of the repository's answers to the client's requests.
/// As long as neither side has ended, the client can ask, or one side has a packet to send, or one side waits for bytes and has some to
/// use. And a client refuses nothing from a server that has refused nothing: it fails only if its input is closed or its stream is too long.
pub fn neither_waits_for_the_other<R: Repo, A: Memory + Copy>()
    ensures front { (format : Format) (limit : ℕ) (before : RepoState) (calls : List (EitherCall A)) (now : BothEnds R A)
        → HaveMet R.state A.refuses format limit before calls now → ¬ IsPackLost (outcome_of now.server)
        → (later : List EventValue) × (announced_play format before.answers (history_of calls).asked ≡ (history_of calls).events ++ later) }
    ensures goes_on { (format : Format) (limit : ℕ) (before : RepoState) (calls : List (EitherCall A)) (now : BothEnds R A)
        → HaveMet R.state A.refuses format limit before calls now
        → fault_of now.client ≡ None → has_left now.client ≡ false → outcome_of now.server ≡ None → CanGoOn R.state now }
    ensures sound { (format : Format) (limit : ℕ) (before : RepoState) (calls : List (EitherCall A)) (now : BothEnds R A) (fault : Fault)
        → HaveMet R.state A.refuses format limit before calls now → ¬ HasRefused now.server
        → fault_of now.client ≡ Some fault → (fault.kind ≡ Truncated) ⊎ (fault.kind ≡ StreamTooLong) }
{}
