//! Conversations: the events of the bytes that a client receives, their pack, and the first error in them.

ghost use Rattle.std.specs.Prelude.{◌≡◌, ◌≢◌, ◌++◌, ◌∷◌, [], None, Some, codes, false, true};
ghost use Rattle.git_client.specs.Conversation.{FirstMalformed, GivesAt, HasEvents, IsConversation, RefusesAt};
ghost use Rattle.git_client.specs.Events.{ack, ended, info, nak, offered, pack, progress, ready, reference, section, shallow, unshallow, wanted_ref};
ghost use Rattle.git_client.specs.Packs.{HasPack};
ghost use Rattle.git_client.specs.Parts.{terms_of};
ghost use Rattle.git_client.specs.Transcript.{transcript_of};
ghost use Rattle.git_client.specs.declared.events.Ending.TheVariants.{FlushOnly, ResponseEnd};
ghost use Rattle.git_client.specs.declared.sections.Section.TheVariants.{Acknowledgments, Packfile, ShallowInfo, WantedRefs};
ghost use Rattle.git_msg.specs.Advertisement.{noted_of};
ghost use Rattle.git_msg.specs.ResponseLines.{wanted_of};
ghost use Rattle.git_msg.specs.WrittenRequest.{text_line};
ghost use Rattle.git_names.specs.declared.object_format.Format.TheVariants.{Sha1, Sha256};
ghost use Rattle.git_pkt.specs.Packets.{delim, flush, payload, resp_end};
ghost use Rattle.git_pkt.specs.declared.fault.Kind.TheVariants.{BadBand, BadDigit, BadLine, NoBand, NotVersion2, RemoteError, RemoteFatal, Truncated};
ghost use Rattle.git_pkt.specs.declared.fault.Kind.TheVariants.{UnexpectedPacket, UnexpectedSection, WrongFormat};
ghost use Rattle.git_rows.specs.Worked.{all_a, fault_at, info_of, name_a};
ghost use Rattle.git_rows.specs.WorkedConversations.{after_acks, after_header, asked_fetch, asked_haves, asked_refs, asked_sizes, head_ref, offered_before};
ghost use Rattle.git_rows.specs.WorkedConversations.{offer_bytes, pack_bytes, refs_begun_bytes, refs_bytes, terms};

/// An advertisement without capabilities.
pub fn shortest_conversation()
    ensures whole { IsConversation terms [] offer_bytes (offered ∷ []) }
    ensures not_without_its_event { ¬ IsConversation terms [] offer_bytes [] }
    ensures not_before_its_flush { ¬ IsConversation terms [] (codes "000eversion 2\n") [] }
    ensures not_before_the_response { ¬ IsConversation terms asked_refs offer_bytes (offered ∷ []) }
    ensures not_in_another_format { ¬ IsConversation (terms_of Sha256 FlushOnly) [] offer_bytes (offered ∷ []) }
{}

/// A reference, received whole and before the flush that ends the response.
pub fn reference_received()
    ensures whole { IsConversation terms asked_refs refs_bytes (offered ∷ reference head_ref ∷ ended ∷ []) }
    ensures begun { HasEvents terms asked_refs refs_begun_bytes (offered ∷ reference head_ref ∷ []) }
    ensures not_ended_before_its_flush { ¬ HasEvents terms asked_refs refs_begun_bytes (offered ∷ reference head_ref ∷ ended ∷ []) }
    ensures not_without_the_reference { ¬ HasEvents terms asked_refs refs_begun_bytes (offered ∷ []) }
    ensures not_whole_before_its_flush { ¬ IsConversation terms asked_refs refs_begun_bytes (offered ∷ reference head_ref ∷ []) }
{}

/// A pack of one byte, received whole and as the beginning of a packet.
pub fn pack_received()
    ensures whole { IsConversation terms asked_fetch (pack_bytes 1 (codes "0000")) (offered ∷ section Packfile ∷ pack 65 ∷ ended ∷ []) }
    ensures begun { HasEvents terms asked_fetch (pack_bytes 1 (codes "0007" ++ 1 ∷ codes "B")) (offered ∷ section Packfile ∷ pack 65 ∷ pack 66 ∷ []) }
    ensures bytes { HasPack terms asked_fetch (pack_bytes 1 (codes "0000")) (codes "A") }
    ensures bytes_of_an_open_packet { HasPack terms asked_fetch (pack_bytes 1 (codes "0007" ++ 1 ∷ codes "B")) (codes "AB") }
    ensures progress_is_no_pack { HasPack terms asked_fetch (pack_bytes 2 (codes "0000")) [] }
    ensures not_another_byte { ¬ HasPack terms asked_fetch (pack_bytes 1 (codes "0000")) (codes "B") }
    ensures not_the_progress { ¬ HasPack terms asked_fetch (pack_bytes 2 (codes "0000")) (codes "A") }
    ensures not_less_of_an_open_packet { ¬ HasEvents terms asked_fetch (pack_bytes 1 (codes "0007" ++ 1 ∷ codes "B"))
        (offered ∷ section Packfile ∷ pack 65 ∷ []) }
{}

/// The first error of bytes: in a packet, in bytes that are no packet, and at the end of the input.
pub fn first_faults_received()
    ensures no_version { FirstMalformed terms [] (codes "0007ERR") (fault_at NotVersion2 0) }
    ensures error { FirstMalformed terms [] (codes "000dERR nope\n") (fault_at RemoteError 0) }
    ensures another_format { FirstMalformed (terms_of Sha256 FlushOnly) [] offer_bytes (fault_at WrongFormat 14) }
    ensures no_digit { FirstMalformed terms [] (codes "00g") (fault_at BadDigit 2) }
    ensures cut { FirstMalformed terms [] (codes "000eversion 2\n00") (fault_at Truncated 14) }
    ensures not_by_another_name { ¬ FirstMalformed terms [] (codes "0007ERR") (fault_at RemoteError 0) }
    ensures not_at_another_offset { ¬ FirstMalformed (terms_of Sha256 FlushOnly) [] offer_bytes (fault_at WrongFormat 0) }
    ensures not_cut_elsewhere { ¬ FirstMalformed terms [] (codes "000eversion 2\n00") (fault_at Truncated 16) }
{}

/// Packets of a response to a fetch that negotiates.
pub fn acknowledgments_received()
    ensures header { GivesAt terms asked_haves offered_before (text_line (codes "acknowledgments")) (section Acknowledgments ∷ []) }
    ensures none { GivesAt terms asked_haves after_acks (text_line (codes "NAK")) (nak ∷ []) }
    ensures one { GivesAt terms asked_haves after_acks (text_line (codes "ACK " ++ all_a)) (ack name_a ∷ []) }
    ensures is_ready { GivesAt terms asked_haves after_acks (text_line (codes "ready")) (ready ∷ []) }
    ensures end { GivesAt terms asked_haves after_acks flush (ended ∷ []) }
    ensures end_where_ready { GivesAt terms asked_haves (text_line (codes "ready") ∷ after_acks) delim [] }
    ensures none_after_done { RefusesAt terms asked_fetch offered_before (text_line (codes "acknowledgments")) UnexpectedSection }
    ensures one_after_none { RefusesAt terms asked_haves (text_line (codes "NAK") ∷ after_acks) (text_line (codes "ACK " ++ all_a)) BadLine }
    ensures flush_where_ready { RefusesAt terms asked_haves (text_line (codes "ready") ∷ after_acks) flush UnexpectedPacket }
    ensures delimiter_where_not { RefusesAt terms asked_haves after_acks delim UnexpectedPacket }
    ensures nothing_after_ready { ¬ GivesAt terms asked_haves (text_line (codes "ready") ∷ after_acks) (text_line (codes "NAK")) (nak ∷ []) }
    ensures not_refused { ¬ RefusesAt terms asked_haves after_acks (text_line (codes "NAK")) BadLine }
{}

/// Packets of the sections that come before a pack, and of the pack.
pub fn sections_received()
    ensures boundary_begins { GivesAt terms asked_fetch offered_before (text_line (codes "shallow-info")) (section ShallowInfo ∷ []) }
    ensures references_begin { GivesAt terms asked_fetch offered_before (text_line (codes "wanted-refs")) (section WantedRefs ∷ []) }
    ensures pack_begins_after_an_empty_section { GivesAt terms asked_fetch (delim ∷ after_header (codes "shallow-info")) (text_line (codes "packfile"))
        (section Packfile ∷ []) }
    ensures cut_history { GivesAt terms asked_fetch (after_header (codes "shallow-info")) (text_line (codes "shallow " ++ all_a)) (shallow name_a ∷ []) }
    ensures more_history { GivesAt terms asked_fetch (after_header (codes "shallow-info")) (text_line (codes "unshallow " ++ all_a)) (unshallow name_a ∷ []) }
    ensures wanted { GivesAt terms asked_fetch (after_header (codes "wanted-refs")) (text_line (all_a ++ codes " refs/x"))
        (wanted_ref (wanted_of name_a (codes "refs/x")) ∷ []) }
    ensures bytes { GivesAt terms asked_fetch (after_header (codes "packfile")) (payload (1 ∷ codes "AB")) (pack 65 ∷ pack 66 ∷ []) }
    ensures progress_bytes { GivesAt terms asked_fetch (after_header (codes "packfile")) (payload (2 ∷ codes "A")) (progress 65 ∷ []) }
    ensures fatal { RefusesAt terms asked_fetch (after_header (codes "packfile")) (payload (3 ∷ codes "bad")) RemoteFatal }
    ensures no_band { RefusesAt terms asked_fetch (after_header (codes "packfile")) (payload []) NoBand }
    ensures bad_band { RefusesAt terms asked_fetch (after_header (codes "packfile")) (payload (4 ∷ [])) BadBand }
    ensures second_section { RefusesAt terms asked_fetch (delim ∷ after_header (codes "shallow-info")) (text_line (codes "shallow-info")) UnexpectedSection }
    ensures flush_before_the_pack { RefusesAt terms asked_fetch (after_header (codes "shallow-info")) flush UnexpectedPacket }
    ensures not_another_section { ¬ GivesAt terms asked_fetch offered_before (text_line (codes "shallow-info")) (section WantedRefs ∷ []) }
    ensures not_unannounced { ¬ GivesAt terms asked_fetch offered_before (text_line (codes "shallow-info")) [] }
    ensures not_the_other_band { ¬ GivesAt terms asked_fetch (after_header (codes "packfile")) (payload (2 ∷ codes "A")) (pack 65 ∷ []) }
    ensures not_refused { ¬ RefusesAt terms asked_fetch (after_header (codes "packfile")) (payload (1 ∷ [])) NoBand }
{}

/// Sizes of objects, and the packet that ends a response of a server that answers one request.
pub fn sizes_and_response_ends_received()
    ensures line { GivesAt terms asked_sizes offered_before (text_line (codes "size")) [] }
    ensures size { GivesAt terms asked_sizes (after_header (codes "size")) (text_line (all_a ++ codes " 12")) (info (info_of name_a (Some 12)) ∷ []) }
    ensures end { GivesAt (terms_of Sha1 ResponseEnd) asked_refs (flush ∷ offered_before) resp_end (ended ∷ []) }
    ensures second_flush { RefusesAt (terms_of Sha1 ResponseEnd) asked_refs (flush ∷ offered_before) flush UnexpectedPacket }
    ensures not_ended_by_its_flush { ¬ GivesAt (terms_of Sha1 ResponseEnd) asked_refs offered_before flush (ended ∷ []) }
    ensures not_where_a_flush_ends_it { ¬ GivesAt terms asked_refs offered_before resp_end (ended ∷ []) }
{}

/// The capabilities that an advertisement notes.
pub fn advertisement_noted()
    ensures feature { (noted_of (text_line (codes "fetch=shallow filter") ∷ [])).filter ≡ true }
    ensures format { (noted_of (text_line (codes "object-format=sha256") ∷ [])).sha256 ≡ true }
    ensures not_another_feature { (noted_of (text_line (codes "fetch=shallow") ∷ [])).filter ≢ true }
    ensures not_of_another_command { (noted_of (text_line (codes "ls-refs=filter") ∷ [])).filter ≢ true }
    ensures not_a_part_of_a_word { (noted_of (text_line (codes "fetch=filters") ∷ [])).filter ≢ true }
{}

/// The transcript of a reference and of a pack.
pub fn transcripts_of_conversations()
    ensures reference_shown { transcript_of asked_refs (offered ∷ reference head_ref ∷ ended ∷ [])
        ≡ codes "offered\nrequest ls-refs\nref " ++ all_a ++ codes " HEAD\nend 0 0\n" }
    ensures bytes_counted { transcript_of asked_fetch (offered ∷ pack 65 ∷ progress 65 ∷ pack 66 ∷ ended ∷ []) ≡ codes "offered\nrequest fetch\nend 2 1\n" }
    ensures not_counted_as_one { transcript_of asked_fetch (offered ∷ pack 65 ∷ progress 65 ∷ ended ∷ []) ≢ codes "offered\nrequest fetch\nend 2 0\n" }
{}
