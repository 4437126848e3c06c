//! What the contract of a server means for the bytes alone: each function does nothing, and its contract is the law.

ghost use Rattle.std.specs.Prelude.{◌≡◌, ◌≢◌, ◌+◌, ◌<◌, ◌≤◌, ◌↔◌, ℕ, Bool, true, false, None, Some, List, [], ◌∷◌, length, take};
ghost use Rattle.git_pkt.specs.Machine.Credit.{MakesAll, Pays, credit_of};
ghost use Rattle.git_pkt.specs.Packets.{Pkt};
ghost use Rattle.git_pkt.specs.declared.fault.Fault.{Fault};
ghost use Rattle.git_pkt.specs.declared.fault.Kind.TheVariants.{OutOfMemory, PackSource};
ghost use Rattle.git_msg.specs.Asked.{Asked};
ghost use Rattle.git_server.specs.Sessions.{GoesOn, IsAnswered, IsEnding, IsOfTheBytes, IsRunning, IsSession, Setting, Stream};
ghost use Rattle.git_server.specs.PackCuts.{AreSameButForCuts};
ghost use Rattle.git_server.specs.declared.outcome.Outcome.{Outcome};
ghost use Rattle.git_server.specs.declared.outcome.Outcome.TheVariants.{Flush, Closed, Refused};
ghost use Rattle.git_server.specs.declared.server.Pulled.{Pulled};
ghost use Rattle.git_server.specs.Machine.Calls.{Call, Headline, Makes, feed, pull, close};
ghost use Rattle.git_server.specs.Machine.ServerCalls.{Closes, Goes, KeepsToMemory, Pulls};
ghost use Rattle.git_server.specs.Machine.Server.{IsPackLost, Running, bytes_held, bytes_held_by_fields, kept_by, outcome_of, reader_of, repo_of, wants_input};

use crate::repo::Repo;
use crate::server::Server;
use git_msg::Memory;
use std::alloc::Allocator;

/// At every moment the bytes that a server has used and sent are those of a session: without an outcome the session goes on,
/// and with one it ended so. The argument lines and server options that the server stores are within its limit.
pub fn server_keeps_to_its_session<R: Repo, A: Allocator + Copy>(server: &Server<R, A>)
    ensures within { (s : Setting) (used : List ℕ) (over : Bool) (given : List ℕ) →
        Running R.state s used over given server.now → kept_by server.now ≤ s.limit }
    ensures session { (s : Setting) (used : List ℕ) (over : Bool) (given : List ℕ) →
        Running R.state s used over given server.now → IsRunning s used over given }
    ensures goes_on { (s : Setting) (used : List ℕ) (over : Bool) (given : List ℕ) → Running R.state s used over given server.now
        → outcome_of server.now ≡ None → (over ≡ false) × GoesOn s used given }
    ensures ends { (s : Setting) (used : List ℕ) (over : Bool) (given : List ℕ) (outcome : Outcome) → Running R.state s used over given server.now
        → outcome_of server.now ≡ Some outcome → (unsent : List Pkt) × IsEnding s used over given outcome unsent }
{}

/// A server that neither waits for input nor has an outcome has used whole requests and nothing else.
pub fn server_stops_at_a_request<R: Repo, A: Allocator + Copy>(server: &Server<R, A>)
    ensures { (s : Setting) (used : List ℕ) (over : Bool) (given : List ℕ) → Running R.state s used over given server.now
        → outcome_of server.now ≡ None → wants_input server.now ≡ false → (asked : List Asked) × Stream s used asked [] [] }
{}

/// A server never has more bytes than the longest packet and its limit together.
pub fn server_holds_within_its_limit<R: Repo, A: Allocator + Copy>(server: &Server<R, A>)
    ensures { (s : Setting) (used : List ℕ) (over : Bool) (given : List ℕ) →
        Running R.state s used over given server.now → bytes_held server.now ≤ 65520 + s.limit }
{}

/// A server waits for input if and only if it has no outcome and has sent all of the advertisement and all of the answer to each
/// whole request.
pub fn server_waits_where_all_is_given<R: Repo, A: Allocator + Copy>(server: &Server<R, A>)
    ensures { (s : Setting) (used : List ℕ) (over : Bool) (given : List ℕ) → Running R.state s used over given server.now
        → (wants_input server.now ≡ true) ↔ ((outcome_of server.now ≡ None) × IsAnswered s used given) }
{}

/// A session ends without the requested pack if and only if a read of the repository has failed since the session began.
pub fn session_lacks_a_pack_where_a_read_failed<R: Repo, A: Allocator + Copy>(server: &Server<R, A>)
    ensures { (s : Setting) (used : List ℕ) (over : Bool) (given : List ℕ) → Running R.state s used over given server.now
        → IsPackLost (outcome_of server.now) ↔ (s.failures < (R.state (repo_of server.now)).failures) }
{}

/// The bytes used, and whether the input ended with them, determine how a session ends, unless memory runs out or the source of a pack
/// fails.
pub fn session_has_one_outcome()
    ensures { (s : Setting) (used : List ℕ) (over : Bool) (given others : List ℕ) (outcome other : Outcome)
        → IsSession s used over given outcome → IsSession s used over others other
        → IsOfTheBytes outcome → IsOfTheBytes other → outcome ≡ other }
{}

/// The bytes alone decide every outcome except two: that memory ran out, and that the source of a pack failed.
pub fn bytes_decide_outcomes()
    ensures flush { IsOfTheBytes Flush }
    ensures closed { IsOfTheBytes Closed }
    ensures refused { (fault : Fault) → fault.kind ≢ OutOfMemory → fault.kind ≢ PackSource → IsOfTheBytes (Refused fault) }
{}

/// The bytes used, and whether the input ended with them, determine the output of a session, except for how its packs are cut into packets,
/// and unless memory runs out or the source of a pack fails. The same holds of a session that goes on, if it has sent all that it has to send.
pub fn session_has_one_output()
    ensures ended { (s : Setting) (used : List ℕ) (over : Bool) (given others : List ℕ) (outcome other : Outcome)
        → IsSession s used over given outcome → IsSession s used over others other
        → IsOfTheBytes outcome → IsOfTheBytes other → AreSameButForCuts given others }
    ensures answered { (s : Setting) (used given others : List ℕ)
        → IsAnswered s used given → IsAnswered s used others → AreSameButForCuts given others }
{}

/// The count of a server's bytes covers all its fields: its packet reader, the request that it reads and the one that it answers. Its
/// repository belongs to the host and is not counted. A new field must be added here.
pub fn all_fields_are_counted<R: Repo, A: Allocator + Copy>()
    ensures { (server : Server R A) → bytes_held_by_fields server ≡ bytes_held server }
{}

/// The contract of each method ensures a call of the headline, and such calls follow one another: so the headline covers all calls that
/// a program makes.
pub fn methods_make_calls<R: Repo, A: Memory + Copy>()
    ensures fed { (old new : Server R A) (chunk : List ℕ) (used before after : ℕ) → used ≤ length chunk
        → Goes R.state (take used chunk) [] old new → Pays used before after (credit_of (reader_of old)) (credit_of (reader_of new))
        → KeepsToMemory R.state A.refuses old new
        → Makes R.state A.refuses (feed chunk used) before old after new }
    ensures pulled { (old new : Server R A) (answer : Pulled) (steps : ℕ) → Pulls R.state old answer new
        → Makes R.state A.refuses (pull answer) steps old steps new }
    ensures closed { (old new : Server R A) (steps : ℕ) → wants_input old ≡ true → Closes R.state old new
        → credit_of (reader_of new) ≤ credit_of (reader_of old) → Makes R.state A.refuses close steps old steps new }
    ensures none { (server : Server R A) (steps : ℕ) → MakesAll (Makes R.state A.refuses) [] steps server steps server }
    ensures more { (call : Call) (calls : List Call) (before next after : ℕ) (old between new : Server R A)
        → Makes R.state A.refuses call before old next between → MakesAll (Makes R.state A.refuses) calls next between after new
        → MakesAll (Makes R.state A.refuses) (call ∷ calls) before old after new }
{}

/// Take a server that was new, any calls after that, and any chunks of input. The server then has at most 65,520 bytes in its buffer, and
/// arguments within its limit; it has taken at most 64 steps for each byte used and for each call of `feed`; its output is in the
/// answer relation to its whole input; and it refuses the first malformed packet at its offset, by name.
pub fn headline<R: Repo, A: Memory + Copy>(server: &Server<R, A>)
    ensures { (s : Setting) (calls : List Call) (before after : ℕ) (first : Server R A) → Running R.state s [] false [] first
        → credit_of (reader_of first) ≡ 0 → MakesAll (Makes R.state A.refuses) calls before first after server.now
        → Headline R.state A.refuses s calls before after server.now }
{}
