//! Requests: packets that are one, and the first packet that is refused, with its error and its offset.

ghost use Rattle.std.specs.Prelude.{◌∷◌, [], codes, false, true};
ghost use Rattle.git_msg.specs.Asked.{fetch, ls_refs};
ghost use Rattle.git_msg.specs.Lines.{HasFault, command, delimiter};
ghost use Rattle.git_msg.specs.Requests.{Asks, FirstFault, IsStop, WantsMemory};
ghost use Rattle.git_msg.specs.WrittenRequest.{text_line};
ghost use Rattle.git_msg.specs.declared.arguments.Command.TheVariants.{Fetch, LsRefs};
ghost use Rattle.git_pkt.specs.Packets.{delim, flush, resp_end};
ghost use Rattle.git_pkt.specs.declared.fault.Kind.TheVariants.{NoWants, OutOfMemory, TooMuchKept, UnexpectedPacket, UnknownCommand};
ghost use Rattle.git_pkt.specs.declared.fault.Kind.TheVariants.{BadCapability, NoCommand, NotAdvertised, RemoteError, TwoCommands, WrongFormat};
ghost use Rattle.git_rows.specs.Worked.{at, fetch_done_packets, fetch_of, ls_refs_of, ls_refs_packets, name_a, no_want_packets, offer_all};
ghost use Rattle.git_rows.specs.Worked.{option_asked, option_packets, three_argument_packets, want_alone_packets};

/// A request for references without arguments.
pub fn request_for_references()
    ensures asks { Asks offer_all 0 ls_refs_packets (ls_refs (ls_refs_of [])) 0 }
    ensures not_for_a_prefix { ¬ Asks offer_all 0 ls_refs_packets (ls_refs (ls_refs_of (codes "refs/" ∷ []))) 0 }
    ensures not_of_more_bytes { ¬ Asks offer_all 0 ls_refs_packets (ls_refs (ls_refs_of [])) 1 }
    ensures not_without_its_flush { ¬ Asks offer_all 0 (at 0 (text_line (codes "command=ls-refs")) ∷ []) (ls_refs (ls_refs_of [])) 0 }
{}

/// A request with a server option, which comes before its command: it is kept, within a limit of exactly its line's bytes.
pub fn request_with_a_server_option()
    ensures asks { Asks offer_all 15 option_packets option_asked 15 }
    ensures not_without_it { ¬ Asks offer_all 15 option_packets (ls_refs (ls_refs_of [])) 15 }
    ensures not_uncounted { ¬ Asks offer_all 15 option_packets option_asked 0 }
    ensures past_the_limit { FirstFault offer_all 14 option_packets TooMuchKept 0 }
    ensures not_by_another_name { ¬ FirstFault offer_all 14 option_packets NotAdvertised 0 }
    ensures memory { WantsMemory offer_all 15 (at 0 (text_line (codes "server-option=x")) ∷ []) OutOfMemory 0 }
{}

/// A fetch of one object, with `done`, within a limit of exactly its bytes.
pub fn fetch_of_one_object()
    ensures asks { Asks offer_all 49 fetch_done_packets (fetch (fetch_of (name_a ∷ []) true)) 49 }
    ensures not_with_haves_to_come { ¬ Asks offer_all 49 fetch_done_packets (fetch (fetch_of (name_a ∷ []) false)) 49 }
    ensures not_of_nothing { ¬ Asks offer_all 49 fetch_done_packets (fetch (fetch_of [] true)) 49 }
    ensures not_past_the_limit { ¬ Asks offer_all 48 fetch_done_packets (fetch (fetch_of (name_a ∷ []) true)) 49 }
{}

/// The third of three arguments exceeds the limit, and is reported at its offset.
pub fn argument_past_the_limit()
    ensures refused { FirstFault offer_all 26 three_argument_packets TooMuchKept 60 }
    ensures not_at_the_one_before { ¬ FirstFault offer_all 26 three_argument_packets TooMuchKept 33 }
    ensures not_by_another_name { ¬ FirstFault offer_all 26 three_argument_packets OutOfMemory 60 }
{}

/// A fetch without a want, refused at its flush.
pub fn fetch_without_a_want()
    ensures refused { FirstFault offer_all 49 no_want_packets NoWants 31 }
    ensures not_where_there_is_a_want { ¬ FirstFault offer_all 49 fetch_done_packets NoWants 81 }
    ensures no_request { ¬ Asks offer_all 49 no_want_packets (fetch (fetch_of [] true)) 4 }
{}

/// Packets that no request may have at that place, each with its error.
pub fn packets_refused()
    ensures unknown_command { HasFault offer_all 0 [] (text_line (codes "command=bundle-uri")) UnknownCommand }
    ensures two_commands { HasFault offer_all 0 (command LsRefs ∷ []) (text_line (codes "command=ls-refs")) TwoCommands }
    ensures no_command { HasFault offer_all 0 [] delim NoCommand }
    ensures no_capability { HasFault offer_all 0 [] (text_line (codes "=")) BadCapability }
    ensures not_offered { HasFault offer_all 0 [] (text_line (codes "x-later")) NotAdvertised }
    ensures another_format { HasFault offer_all 0 [] (text_line (codes "object-format=sha256")) WrongFormat }
    ensures error { HasFault offer_all 0 [] (text_line (codes "ERR x")) RemoteError }
    ensures response_end { HasFault offer_all 0 [] resp_end UnexpectedPacket }
    ensures second_delimiter { HasFault offer_all 0 (command Fetch ∷ delimiter ∷ []) delim UnexpectedPacket }
    ensures no_fault_in_a_command { ¬ HasFault offer_all 0 [] (text_line (codes "command=fetch")) UnknownCommand }
    ensures no_fault_in_a_stop { ¬ HasFault offer_all 0 [] flush NoCommand }
    ensures not_by_another_name { ¬ HasFault offer_all 0 [] resp_end UnknownCommand }
{}

/// A flush alone ends a session.
pub fn flush_alone()
    ensures stops { IsStop (at 0 flush ∷ []) }
    ensures not_after_a_command { ¬ IsStop ls_refs_packets }
    ensures not_a_delimiter { ¬ IsStop (at 0 delim ∷ []) }
{}

/// Memory runs out at an argument that is stored, and at no other packet.
pub fn memory_for_an_argument()
    ensures at_a_want { WantsMemory offer_all 49 want_alone_packets OutOfMemory 22 }
    ensures not_at_the_delimiter { ¬ WantsMemory offer_all 49 want_alone_packets OutOfMemory 18 }
    ensures not_at_a_flush { ¬ WantsMemory offer_all 49 ls_refs_packets OutOfMemory 20 }
{}
