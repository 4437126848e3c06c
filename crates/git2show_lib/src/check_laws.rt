//! What follows from the definitions of a check alone.

ghost use Rattle.std.specs.Prelude.{◌≡◌, ◌∷◌, ◌++◌, [], ℕ, List, Result, Some, false, true};
ghost use Rattle.git_client.specs.Parts.{Terms};
ghost use Rattle.git_client.specs.Transcript.{transcript_of};
ghost use Rattle.git2show_lib.specs.Machine.CheckFaults.{Standing};
ghost use Rattle.git2show_lib.specs.Machine.CheckedStreams.{Checked};
ghost use Rattle.git2show_lib.specs.Machine.Checker.{Checks, Fed, HasJudged, is_needed, is_opened, needed_of, verdict_of};
ghost use Rattle.git2show_lib.specs.declared.checker.Checker.{Checker};
ghost use Rattle.git2show_lib.specs.declared.checker.Needed.TheVariants.{Nothing};
ghost use Rattle.git2show_lib.specs.declared.checker.Stream.TheVariants.{Requests, Responses};
ghost use Rattle.git2show_lib.specs.declared.checking.CheckFault.{CheckFault};

use std::alloc::Allocator;

/// Where nothing was advertised that is not known, nothing passes by the client: it received all bytes of the responses that were used, and what
/// was written is the transcript of what it was asked and received.
pub fn nothing_passes<A: Allocator + Copy>()
    ensures { (t : Terms) (limit : ℕ) (result : Result (Unit {0}) CheckFault) (requests responses : Standing) (read given : List (List ℕ))
        (c : Checked A t limit result requests responses read given) → c.by.text ≡ []
        → (read ≡ (c.found.used ++ c.found.unused) ∷ (c.h.used ++ c.unused) ∷ []) × (given ≡ transcript_of c.h.asked c.h.events ∷ []) }
{}

/// A checker that needs nothing has judged both streams as [`check`](crate::check) does: what that promises holds of the bytes that it used, and
/// of these with others behind them, and of the lines that it lent.
#[tactic(auto, using(crate::proofs::CheckerStands::judged))]
pub fn checkers_judge<A: Allocator + Copy>()
    ensures { (t : Terms) (limit : ℕ) (requests responses : Fed) (lent : List ℕ) (c : Checker A) (result : Result (Unit {0}) CheckFault)
        → Checks t limit requests responses lent c → needed_of c ≡ Nothing → verdict_of c ≡ Some result
        → HasJudged t limit result requests responses lent c }
{}

/// A checker never needs a stream whose end it has used, and needs requests only where the advertisement is whole.
pub fn checkers_need<A: Allocator + Copy>()
    ensures requests { (t : Terms) (limit : ℕ) (requests responses : Fed) (lent : List ℕ) (c : Checker A) → Checks t limit requests responses lent c
        → requests.closed ≡ true → is_needed Requests (needed_of c) ≡ false }
    ensures responses { (t : Terms) (limit : ℕ) (requests responses : Fed) (lent : List ℕ) (c : Checker A) → Checks t limit requests responses lent c
        → responses.closed ≡ true → is_needed Responses (needed_of c) ≡ false }
    ensures opened { (c : Checker A) → is_needed Requests (needed_of c) ≡ true → is_opened c ≡ true }
{}
