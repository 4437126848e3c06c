//! Runs: the bytes of their streams, and the results of `show`, `check` and `play`.

ghost use Rattle.std.specs.Prelude.{ℕ, ◌≡◌, ◌++◌, ◌∷◌, [], Err, List, None, Ok, Some, codes, false, true};
ghost use Rattle.git2show_lib.specs.Others.{IsOtherAnswer, IsOtherRequest, counted_of, first_place, names_other};
ghost use Rattle.git2show_lib.specs.OtherLines.{named_by};
ghost use Rattle.git2show_lib.specs.Machine.CheckedStreams.{Checked, moved};
ghost use Rattle.git2show_lib.specs.Machine.ShownStream.{Shows};
ghost use Rattle.git_laws.specs.Plays.{Played};
ghost use Rattle.git_msg.specs.Asked.{ls_refs};
ghost use Rattle.git_msg.specs.Machine.HeldRequest.{asked_of};
ghost use Rattle.git_msg.specs.declared.requests.Request.{Request};
ghost use Rattle.git_client.specs.declared.events.Ending.TheVariants.{FlushOnly};
ghost use Rattle.git_pkt.specs.Packets.{delim, flush, payload};
ghost use Rattle.git2show_lib.specs.JsonLines.{json_line};
ghost use Rattle.git2show_lib.specs.PacketViews.{counted, requests_with, strays, viewed};
ghost use Rattle.git2show_lib.specs.PrettyLines.{pretty_line};
ghost use Rattle.git_pkt.specs.Streams.{AreRead, AreWritten, IsTimely, flow};
ghost use Rattle.git_pkt.specs.declared.fault.Kind.TheVariants.{BadLength, StreamTooLong, Truncated};
ghost use Rattle.git_pkt.specs.declared.fault.RunFault.TheVariants.{ReadFault, Refused};
ghost use Rattle.git_rows.specs.Worked.{asked_with, at, fault_at};
ghost use Rattle.git_rows.specs.WorkedConversations.{offer_bytes, terms};
ghost use Rattle.git_rows.specs.WorkedRuns.{bare_state, from_eight, offer_transcript, repo_state, standing, tally_before, with_bundles, without_packs};

use git_laws::answer_laws::received_offer;
use git_laws::play_laws::played_as_answered;
use std::alloc::Allocator;

/// What streams held before and after a run.
pub fn bytes_moved()
    ensures read { AreRead (flow (Some (codes "ab")) (Some (codes "b")) ∷ []) (codes "a" ∷ []) }
    ensures written { AreWritten false (flow (Some (codes "a")) (Some (codes "ab")) ∷ []) (codes "b" ∷ []) }
    ensures front_written { AreWritten true (flow (Some []) (Some (codes "a")) ∷ []) (codes "ab" ∷ []) }
    ensures ended { IsTimely Truncated true [] }
    ensures one_byte_more { IsTimely StreamTooLong false (codes "a") }
    ensures not_another_byte { ¬ AreRead (flow (Some (codes "ab")) (Some (codes "b")) ∷ []) (codes "b" ∷ []) }
    ensures not_a_front_alone { ¬ AreWritten false (flow (Some []) (Some (codes "a")) ∷ []) (codes "ab" ∷ []) }
    ensures not_more_than_that { ¬ AreWritten true (flow (Some []) (Some (codes "abc")) ∷ []) (codes "ab" ∷ []) }
    ensures not_another_stream { ¬ AreWritten false [] (codes "a" ∷ []) }
    ensures not_before_the_end { ¬ IsTimely Truncated false [] }
    ensures not_without_a_byte_more { ¬ IsTimely StreamTooLong false [] }
{}

/// A stream shown to its end, and one that is refused.
pub fn stream_shown()
    ensures whole { Shows (Ok tt) true 3 (codes "0006a\n00040000" ∷ []) (codes "0 data 2 a\\n\n6 data 0\n10 flush\n" ∷ []) }
    ensures refused { Shows (Err (Refused (fault_at BadLength 5))) false 3 (codes "0005a0003" ∷ []) (codes "0 data 1 a\n" ∷ []) }
    ensures not_before_its_end { ¬ Shows (Ok tt) false 3 (codes "0000" ∷ []) (codes "0 flush\n" ∷ []) }
    ensures not_without_its_line { ¬ Shows (Ok tt) true 3 (codes "0000" ∷ []) ([] ∷ []) }
    ensures not_of_a_part { ¬ Shows (Ok tt) true 3 (codes "00000" ∷ []) (codes "0 flush\n" ∷ []) }
{}

/// What is shown of packets with options, and what is counted of them.
pub fn packets_viewed()
    ensures section { pretty_line false 80 false (at 76 (payload (codes "wanted-refs\n"))) ≡ codes "      76    12  section   wanted-refs\n" }
    ensures cut { pretty_line false 40 false (at 0 (payload (codes "ghijklmnopqrstuvwxyz"))) ≡ codes "       0    20  data      ghijklmnopqr..\n" }
    ensures band { pretty_line false 80 true (at 9 (payload (2 ∷ codes "half\n"))) ≡ codes "       9     6  progress  half\n" }
    ensures no_band { pretty_line false 80 false (at 9 (payload (2 ∷ []))) ≡ codes "       9     1  data      \\x02\n" }
    ensures json { json_line (at 18 delim) ≡ codes "{\"offset\":18,\"kind\":\"delim\"}\n" }
    ensures counted { (counted None tally_before (at 9 (payload (1 ∷ codes "PACK")))).pack ≡ 4 }
    ensures left_out { viewed (Some without_packs) tally_before (at 9 (payload (1 ∷ codes "PACK"))) ≡ [] }
    ensures not_left_out { viewed (Some without_packs) tally_before (at 8 flush) ≡ codes "8 flush\n" }
    ensures before { viewed (Some from_eight) tally_before (at 7 flush) ≡ [] }
    ensures not_before { viewed (Some from_eight) tally_before (at 8 delim) ≡ codes "{\"offset\":8,\"kind\":\"delim\"}\n" }
{}

/// The requests with one command, of what a client sent, and what begins no request.
pub fn requests_with_a_command()
    ensures whole { requests_with (codes "fetch") (at 0 (payload (codes "command=ls-refs\n")) ∷ at 20 flush ∷ at 24 (payload (codes "command=fetch\n"))
        ∷ at 42 delim ∷ at 46 flush ∷ []) ≡ at 24 (payload (codes "command=fetch\n")) ∷ at 42 delim ∷ at 46 flush ∷ [] }
    ensures cut_off { requests_with (codes "fetch") (at 0 (payload (codes "command=fetch")) ∷ at 17 delim ∷ [])
        ≡ at 0 (payload (codes "command=fetch")) ∷ at 17 delim ∷ [] }
    ensures not_a_longer_word { requests_with (codes "fetch") (at 0 (payload (codes "command=fetches\n")) ∷ at 20 flush ∷ []) ≡ [] }
    ensures not_behind_another_line { requests_with (codes "fetch") (at 0 (payload (codes "agent=a\n")) ∷ at 12 (payload (codes "command=fetch\n"))
        ∷ at 30 flush ∷ []) ≡ [] }
    ensures stray { strays (at 0 flush ∷ at 4 (payload (codes "version 2\n")) ∷ at 18 delim ∷ []) ≡ 4 ∷ [] }
    ensures not_stray { strays (at 0 flush ∷ at 4 (payload (codes "command=other\n")) ∷ []) ≡ [] }
{}

/// No requests, and responses that are an advertisement alone.
pub fn streams_checked<A: Allocator + Copy>()
    ensures whole { Checked A terms 0 (Ok tt) (standing true) (standing true) ([] ∷ offer_bytes ∷ []) (codes "offered\n" ∷ []) }
    ensures not_while_requests_may_come { ¬ Checked A terms 0 (Ok tt) (standing false) (standing true) ([] ∷ offer_bytes ∷ []) (codes "offered\n" ∷ []) }
    ensures not_while_responses_may_come { ¬ Checked A terms 0 (Ok tt) (standing true) (standing false) ([] ∷ offer_bytes ∷ []) (codes "offered\n" ∷ []) }
    ensures not_without_an_advertisement { ¬ Checked A terms 0 (Ok tt) (standing true) (standing true) ([] ∷ [] ∷ []) ([] ∷ []) }
{}

/// A command that was advertised but is not known, and the offset of an error after the bytes that were passed on for it.
pub fn another_command()
    ensures named { names_other (codes "bundle-uri\n") first_place (payload (codes "command=bundle-uri\n")) ≡ true }
    ensures behind_a_line { IsOtherRequest with_bundles 0 (at 0 (payload (codes "agent=a\n")) ∷ at 12 (payload (codes "command=bundle-uri\n"))
        ∷ at 35 delim ∷ at 39 flush ∷ []) }
    ensures shown { named_by (codes "x-later\nbundle-uri\n") (at 0 (payload (codes "x-later=1\n")) ∷ at 14 (payload (codes "command=bundle-uri\n")) ∷ [])
        ≡ codes "capability x-later=1\nrequest bundle-uri\n" }
    ensures passes { IsOtherAnswer FlushOnly (codes "0006a\n0000") }
    ensures counted { counted_of (codes "x-later\n") (at 0 (payload (codes "x-later=1")) ∷ at 13 delim ∷ at 17 (payload (codes "done\n")) ∷ []) ≡ 13 }
    ensures reported { moved 10 (fault_at BadLength 5) ≡ fault_at BadLength 15 }
    ensures none_passed { moved 0 (fault_at BadLength 5) ≡ fault_at BadLength 5 }
    ensures not_behind_a_command { ¬ IsOtherRequest with_bundles 0 (at 0 (payload (codes "command=ls-refs\n")) ∷ at 20 (payload (codes "command=bundle-uri\n"))
        ∷ at 43 flush ∷ []) }
    ensures not_unadvertised { names_other (codes "other\n") first_place (payload (codes "command=bundle-uri\n")) ≡ false }
    ensures not_known { names_other (codes "fetch=other\n") first_place (payload (codes "command=fetch\n")) ≡ false }
    ensures not_past_its_flush { ¬ IsOtherAnswer FlushOnly (codes "00000000") }
    ensures not_a_capability { names_other (codes "bundle-uri\n") first_place (payload (codes "bundle-uri\n")) ≡ false }
{}

/// A play without requests: the client receives the advertisement, and leaves.
pub fn nothing_played<A: Allocator + Copy>()
    ensures whole { Played {A = A} 0 terms 0 repo_state [] (Ok tt) [] (offer_transcript ∷ [] ∷ []) }
    ensures not_without_a_pack_writer { ¬ Played {A = A} 0 terms 0 repo_state [] (Ok tt) [] (offer_transcript ∷ []) }
    ensures not_read_of_a_stream { ¬ Played {A = A} 0 terms 0 repo_state [] (Ok tt) (offer_transcript ∷ []) (offer_transcript ∷ [] ∷ []) }
    ensures no_read_fails { ¬ Played {A = A} 0 terms 0 repo_state [] (Err ReadFault) [] ([] ∷ [] ∷ []) }
{
    received_offer();
}

/// Plays of no request and of one for references, over an empty repository, which ended well: exactly this was written.
pub fn plays_that_ended_well<A: Allocator + Copy>()
    ensures nothing_asked { (given : List (List ℕ)) → Played {A = A} 0 terms 0 bare_state [] (Ok tt) [] given → given ≡ offer_transcript ∷ [] ∷ [] }
    ensures references_asked { (request : Request A) (given : List (List ℕ)) → asked_of request ≡ ls_refs (asked_with false false [])
        → Played {A = A} 0 terms 0 bare_state (request ∷ []) (Ok tt) [] given
        → given ≡ (offer_transcript ++ codes "request ls-refs\nend 0 0\n") ∷ [] ∷ [] }
    ensures not_unanswered { (request : Request A) → asked_of request ≡ ls_refs (asked_with false false [])
        → ¬ Played {A = A} 0 terms 0 bare_state (request ∷ []) (Ok tt) [] (offer_transcript ∷ [] ∷ []) }
    ensures not_with_a_pack { ¬ Played {A = A} 0 terms 0 bare_state [] (Ok tt) [] (offer_transcript ∷ codes "PACK" ∷ []) }
{
    played_as_answered::<A>();
}
