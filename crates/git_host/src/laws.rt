//! What follows from the definitions of what a store reports.

ghost use Rattle.std.specs.Prelude.{◌≡◌, ◌≢◌, ◌≤◌, ℕ, List, [], ◌∷◌, true, false, Option, Ok, Err, length, map, take};
ghost use Rattle.git_names.specs.declared.object_format.Format.{Format};
ghost use Rattle.git_pkt.specs.Packets.{Pkt};
ghost use Rattle.git_pkt.specs.Bands.{AreBands};
ghost use Rattle.git_pkt.specs.declared.band.Band.TheVariants as Band;
ghost use Rattle.git_msg.specs.declared.flags.Flag.{Flag};
ghost use Rattle.git_msg.specs.Arguments.{Arg};
ghost use Rattle.git_msg.specs.Asked.{fetch, ls_refs, object_info, oids_in, flag_among};
ghost use Rattle.git_server.specs.Packs.{Manner, whole};
ghost use Rattle.git_server.specs.Repository.{Repository};
ghost use Rattle.git_server.specs.Answers.{IsAnswerAs};
ghost use Rattle.git_host.specs.FetchFacts.{FetchFacts, HasPack, IsFetchAnswerOf, IsSoundFetchAnswer};
ghost use Rattle.git_host.specs.RepositoryFacts.{AreOfRepository};
ghost use Rattle.git_host.specs.ReferencesPlaces.{IsReferencesAnswerOf, ReferencesFacts};
ghost use Rattle.git_host.specs.SizesPlaces.{IsSizesAnswerOf};
ghost use Rattle.git_pkt.specs.Machine.Credit.{MakesAll, Pays};
ghost use Rattle.git_host.specs.HostSessions.{HostSetting};
ghost use Rattle.git_host.specs.HostServer.{AcceptsHost, ClosesHost, FeedsHost, Hosts, KeepsFault, KeepsHostToMemory, RefusesHost, ReportsHost, StepsHost};
ghost use Rattle.git_host.specs.HostServer.{ReportsTexts};
ghost use Rattle.git_host.specs.ReferenceTexts.{Texts};
ghost use Rattle.git_host.specs.HostServer.{begun_in, bytes_of, credit_of, given_with};
ghost use Rattle.git_host.specs.HostMemory.{ReportNeedsRefusal, bytes_held, bytes_held_by_fields};
ghost use Rattle.git_host.specs.HostCalls.{HostCall, HostHeadline, Makes, accept, close, feed, given_at, next, nothing, refuse, report};
ghost use Rattle.git_host.specs.declared.report.HostReported.{HostReported};
ghost use Rattle.git_host.specs.declared.report.HostStep.{HostStep};
ghost use Rattle.git_host.specs.declared.report.ReferenceFault.{ReferenceFault};
ghost use Rattle.git_host.specs.declared.report.Report.{Report};

use crate::host_server::HostServer;
use git_msg::Memory;
use std::alloc::Allocator;

/// If what was reported for a fetch is what a repository answers, what is sent is an answer of the repository, whole or broken off.
pub fn fetch_answer_is_a_repositorys()
    ensures { (manner : Manner) (repo : Repository) (q : List Arg) (t : FetchFacts) (packets : List Pkt) → AreOfRepository manner repo q t
        → IsFetchAnswerOf manner q t packets → IsAnswerAs manner repo (fetch q) packets }
{}

/// The same of references: those reported are the repository's, and what an unborn `HEAD` points to.
pub fn references_answer_is_a_repositorys()
    ensures { (repo : Repository) (format : Format) (q : List Arg) (t : ReferencesFacts) (packets : List Pkt) → t.refs ≡ repo.refs
        → t.unborn ≡ repo.unborn_head → IsReferencesAnswerOf format q t packets → IsAnswerAs whole repo (ls_refs q) packets }
{}

/// The same of sizes.
pub fn sizes_answer_is_a_repositorys()
    ensures { (repo : Repository) (q : List Arg) (sizes : List (Option ℕ)) (packets : List Pkt) → sizes ≡ map repo.object_size (oids_in q)
        → IsSizesAnswerOf q sizes packets → IsAnswerAs whole repo (object_info q) packets }
{}

/// If a request wants no progress, what is sent after the header of the pack has bytes of the pack alone, on its band.
pub fn no_progress_is_given()
    ensures { (manner : Manner) (format : Format) (q : List Arg) (t : FetchFacts) (packets : List Pkt) → IsSoundFetchAnswer manner format q t packets
        → flag_among q Flag.NoProgress ≡ true → (pack : HasPack manner q t packets) → AreBands Band.Pack t.pack pack.parts }
{}

/// However the input is cut, after any calls of a host's server that was new before them it holds at most 65,520 buffered bytes, twice its limit
/// of kept arguments, 33 bytes for each reference that the request at hand wants, and the names of the reference that was reported last, or the
/// buffer of its name; and it has taken at most 64 steps for each byte used and each call of `feed`. If the session has ended, its output is the
/// session that its whole input calls for by what was reported of each request, and the first malformed packet was refused at its offset by
/// name. It waits for input only where each request was answered, and while one is answered it has given the front of an answer. It lacks
/// memory only where memory refused a list.
pub fn host_headline<A: Memory + Copy>(server: &HostServer<A>)
    ensures { (s : HostSetting) (calls : List HostCall) (before after : ℕ) (first : HostServer A) → Hosts s [] false [] [] first
        → credit_of first ≡ 0 → MakesAll (Makes A.refuses) calls before first after server.now
        → HostHeadline A.refuses s calls before after server.now }
{
    let _ = server.packet();
}

/// What is counted of a host's server is what its fields have. A field more has to be named here.
pub fn all_fields_are_counted<A: Allocator + Copy>()
    ensures { (server : HostServer A) → bytes_held_by_fields server ≡ bytes_held server }
{}

/// What the contract of each method ensures is a call of the headline, also where it returns false; and calls follow one another: so the
/// headline is about any that a program makes.
pub fn methods_make_calls<A: Memory + Copy>()
    ensures fed { (old new : HostServer A) (chunk : List ℕ) (used before after : ℕ) → used ≤ length chunk → FeedsHost (take used chunk) old new
        → Pays used before after (credit_of old) (credit_of new) → KeepsHostToMemory A.refuses old new
        → Makes A.refuses (feed chunk used (begun_in old.phase new.phase)) before old after new }
    ensures closed { (old new : HostServer A) (steps : ℕ) → ClosesHost old true new → credit_of new ≤ credit_of old
        → Makes A.refuses close steps old steps new }
    ensures unclosed { (old new : HostServer A) (steps : ℕ) → ClosesHost old false new → Makes A.refuses nothing steps old steps new }
    ensures stepped { (old new : HostServer A) (step : HostStep) (steps : ℕ) → StepsHost old step new → credit_of new ≤ credit_of old → KeepsFault old new
        → Makes A.refuses (next step (given_at step new)) steps old steps new }
    ensures reported { (old new : HostServer A) (fact : Report) (what : HostReported) (steps : ℕ) → ReportsHost fact old what new
        → credit_of new ≤ credit_of old → KeepsFault old new → ReportNeedsRefusal A.refuses old what
        → Makes A.refuses (report fact what (given_with what new.stream)) steps old steps new }
    ensures texts { (old new : HostServer A) (texts : Texts) (what : HostReported) (steps : ℕ) → ReportsTexts texts old (Ok what) new
        → what ≢ HostReported.OutOfMemory → credit_of new ≤ credit_of old → KeepsFault old new
        → (fact : Report) × Makes A.refuses (report fact what (given_with what new.stream)) steps old steps new }
    ensures unread { (old new : HostServer A) (texts : Texts) (fault : ReferenceFault) (steps : ℕ) → ReportsTexts texts old (Err fault) new
        → Makes A.refuses nothing steps old steps new }
    ensures accepted { (old new : HostServer A) (steps : ℕ) → AcceptsHost old true new → credit_of new ≤ credit_of old → KeepsFault old new
        → Makes A.refuses accept steps old steps new }
    ensures unaccepted { (old new : HostServer A) (steps : ℕ) → AcceptsHost old false new → Makes A.refuses nothing steps old steps new }
    ensures refused { (old new : HostServer A) (text : List ℕ) (steps : ℕ) → RefusesHost text old true new → credit_of new ≤ credit_of old
        → KeepsFault old new → Makes A.refuses (refuse text (bytes_of new)) steps old steps new }
    ensures unrefused { (old new : HostServer A) (text : List ℕ) (steps : ℕ) → RefusesHost text old false new → credit_of new ≤ credit_of old
        → KeepsFault old new → Makes A.refuses nothing steps old steps new }
    ensures none { (server : HostServer A) (steps : ℕ) → MakesAll (Makes A.refuses) [] steps server steps server }
    ensures more { (call : HostCall) (calls : List HostCall) (before between after : ℕ) (first next last : HostServer A)
        → Makes A.refuses call before first between next → MakesAll (Makes A.refuses) calls between next after last
        → MakesAll (Makes A.refuses) (call ∷ calls) before first after last }
{}
