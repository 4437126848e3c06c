//! Sessions: what a server sends for the bytes that it used, and how a session ends.

ghost use Rattle.std.specs.Prelude.{◌++◌, ◌∷◌, [], Some, codes, false, true};
ghost use Rattle.git_msg.specs.Asked.{fetch, ls_refs, object_info};
ghost use Rattle.git_msg.specs.WrittenRequest.{text_line};
ghost use Rattle.git_pkt.specs.Packets.{delim, flush, payload};
ghost use Rattle.git_pkt.specs.declared.fault.Kind.TheVariants.{BadDigit, NotOurs, PackSource, Truncated, UnknownCommand};
ghost use Rattle.git_server.specs.Answers.{IsAnswer, IsAnswerAs};
ghost use Rattle.git_server.specs.Packs.{broken};
ghost use Rattle.git_server.specs.Sessions.{FirstMalformed, IsSession};
ghost use Rattle.git_server.specs.declared.outcome.Outcome.TheVariants.{Closed, Flush, Refused};
ghost use Rattle.git_rows.specs.Worked.{all_a, all_b, asked_with, fault_at, fetch_of, haves_of, name_a, name_b, sizes_of};
ghost use Rattle.git_rows.specs.WorkedSessions.{fetch_bytes, listed_bytes, ls_refs_bytes, repo, repo_where, setting};

/// A session of a flush alone, and one of no bytes.
pub fn sessions_without_a_request()
    ensures left { IsSession setting (codes "0000") false [] Flush }
    ensures closed { IsSession setting [] true [] Closed }
    ensures not_closed_while_the_input_goes_on { ¬ IsSession setting [] false [] Closed }
    ensures not_both { ¬ IsSession setting (codes "0000") true [] Closed }
{}

/// A request for references, after which the input ends.
pub fn references_listed()
    ensures answered { IsSession setting ls_refs_bytes true listed_bytes Closed }
    ensures not_unanswered { ¬ IsSession setting ls_refs_bytes true [] Closed }
    ensures not_without_the_tag { ¬ IsSession setting ls_refs_bytes true (codes "0032" ++ all_a ++ codes " HEAD\n0000") Closed }
    ensures not_left { ¬ IsSession setting ls_refs_bytes true listed_bytes Flush }
{}

/// A fetch with `done`: its pack in one packet, in two, and a pack that cannot be read.
pub fn pack_sent()
    ensures in_one_packet { IsSession setting fetch_bytes true (codes "000dpackfile\n000a" ++ 1 ∷ codes "PACK!0000") Closed }
    ensures in_two_packets { IsSession setting fetch_bytes true (codes "000dpackfile\n0007" ++ 1 ∷ codes "PA0008" ++ 1 ∷ codes "CK!0000") Closed }
    ensures broken_off { IsSession setting fetch_bytes false (codes "000dpackfile\n000f" ++ 3 ∷ codes "PackSource") (Refused (fault_at PackSource 81)) }
    ensures not_left { ¬ IsSession setting fetch_bytes true (codes "000dpackfile\n000a" ++ 1 ∷ codes "PACK!0000") Flush }
{}

/// Input that is refused, each time with the error packet.
pub fn input_refused()
    ensures unknown_command { IsSession setting (codes "0017command=bundle-uri\n") false (codes "001cERR UnknownCommand at 0\n")
        (Refused (fault_at UnknownCommand 0)) }
    ensures no_digit { IsSession setting (codes "00g") false (codes "0016ERR BadDigit at 2\n") (Refused (fault_at BadDigit 2)) }
    ensures cut { IsSession setting (codes "0014command=ls-refs\n") true (codes "0018ERR Truncated at 20\n") (Refused (fault_at Truncated 20)) }
    ensures not_ours { FirstMalformed setting (codes "0012command=fetch\n00010032want " ++ all_b ++ codes "\n") false (fault_at NotOurs 22) }
    ensures not_unreported { ¬ IsSession setting (codes "00g") false [] (Refused (fault_at BadDigit 2)) }
    ensures not_at_another_offset { ¬ FirstMalformed setting (codes "00g") false (fault_at BadDigit 1) }
    ensures not_while_the_input_goes_on { ¬ FirstMalformed setting (codes "0014command=ls-refs\n") false (fault_at Truncated 20) }
    ensures not_closed { ¬ IsSession setting (codes "0014command=ls-refs\n") true [] Closed }
{}

/// Answers about references and objects.
pub fn answers_about_references_and_objects()
    ensures targets_and_peeled { IsAnswer repo (ls_refs (asked_with true true []))
        (text_line (all_a ++ codes " HEAD symref-target:refs/x") ∷ text_line (all_b ++ codes " refs/tags/v1 peeled:" ++ all_a) ∷ flush ∷ []) }
    ensures below_a_prefix { IsAnswer repo (ls_refs (asked_with false false (codes "refs/" ∷ []))) (text_line (all_b ++ codes " refs/tags/v1") ∷ flush ∷ []) }
    ensures sizes { IsAnswer repo (object_info (sizes_of (name_a ∷ name_b ∷ [])))
        (text_line (codes "size") ∷ text_line (all_a ++ codes " 12") ∷ text_line (all_b ++ codes " ") ∷ flush ∷ []) }
    ensures not_all_below_a_prefix { ¬ IsAnswer repo (ls_refs (asked_with false false (codes "refs/" ∷ [])))
        (text_line (all_a ++ codes " HEAD") ∷ text_line (all_b ++ codes " refs/tags/v1") ∷ flush ∷ []) }
    ensures not_without_a_flush { ¬ IsAnswer repo (object_info (sizes_of [])) (text_line (codes "size") ∷ []) }
    ensures never_broken_off { ¬ IsAnswerAs broken repo (ls_refs (asked_with false false [])) [] }
{}

/// Answers to fetches: one that negotiates, one that is ready, and one with `done`.
pub fn answers_to_fetches()
    ensures nothing_common { IsAnswer repo (fetch (haves_of (name_b ∷ []))) (text_line (codes "acknowledgments") ∷ text_line (codes "NAK") ∷ flush ∷ []) }
    ensures one_common { IsAnswer repo (fetch (haves_of (name_b ∷ name_a ∷ [])))
        (text_line (codes "acknowledgments") ∷ text_line (codes "ACK " ++ all_a) ∷ flush ∷ []) }
    ensures is_ready { IsAnswer (repo_where true) (fetch (haves_of (name_a ∷ [])))
        (text_line (codes "acknowledgments") ∷ text_line (codes "ACK " ++ all_a) ∷ text_line (codes "ready") ∷ delim
        ∷ text_line (codes "shallow-info") ∷ text_line (codes "shallow " ++ all_a) ∷ delim
        ∷ text_line (codes "packfile") ∷ payload (1 ∷ codes "PACK!") ∷ flush ∷ []) }
    ensures done { IsAnswer repo (fetch (fetch_of (name_a ∷ []) true)) (text_line (codes "packfile") ∷ payload (1 ∷ codes "PACK!") ∷ flush ∷ []) }
    ensures not_an_ack_of_what_is_not_there { ¬ IsAnswer repo (fetch (haves_of (name_b ∷ [])))
        (text_line (codes "acknowledgments") ∷ text_line (codes "ACK " ++ all_b) ∷ flush ∷ []) }
    ensures not_unready { ¬ IsAnswer (repo_where true) (fetch (haves_of (name_a ∷ [])))
        (text_line (codes "acknowledgments") ∷ text_line (codes "ACK " ++ all_a) ∷ flush ∷ []) }
    ensures not_without_its_pack { ¬ IsAnswer repo (fetch (fetch_of (name_a ∷ []) true)) (text_line (codes "packfile") ∷ flush ∷ []) }
{}
