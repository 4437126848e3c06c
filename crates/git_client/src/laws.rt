//! Consequences of the definitions alone: each law is the contract of a function without parameters.

ghost use Rattle.std.specs.Prelude.{◌≡◌, ◌≢◌, ◌+◌, ◌≤◌, ◌↔◌, ℕ, List, [], ◌∷◌, ◌++◌, Some, None, length, map, true};
ghost use Rattle.git_pkt.specs.Machine.Credit.{MakesAll, Pays, credit_of};
ghost use Rattle.git_pkt.specs.Packets.{Pkt};
ghost use Rattle.git_pkt.specs.Splits.{Given, Splits};
ghost use Rattle.git_pkt.specs.declared.fault.Fault.{Fault};
ghost use Rattle.git_pkt.specs.declared.fault.Kind.{Kind};
ghost use Rattle.git_pkt.specs.declared.fault.Kind.TheVariants.{Truncated, StreamTooLong};
ghost use Rattle.git_names.specs.declared.object_format.Format.{Format};
ghost use Rattle.git_msg.specs.Advertisement.{is_spoken};
ghost use Rattle.git_msg.specs.Asked.{Asked};
ghost use Rattle.git_msg.specs.declared.offers.Caps.{Caps};
ghost use Rattle.git_msg.specs.declared.requests.Request.{Request};
ghost use Rattle.git_client.specs.Parts.{Terms, nearest};
ghost use Rattle.git_client.specs.Events.{EventValue, pack_bytes};
ghost use Rattle.git_client.specs.Packs.{HasPack};
ghost use Rattle.git_client.specs.Responses.{GoesByMessages, IsResponse};
ghost use Rattle.git_client.specs.Conversation.{GivesAt, GiveAll, RefusesAt, FirstFault, HasEvents, HasNoted, FirstMalformed, GoesWell, IsConversation};
ghost use Rattle.git_client.specs.Machine.Client.{Converses, History, bytes_held, limit_of, fault_of, can_ask, left_to_send, sent_of, spelled, caps_of};
ghost use Rattle.git_client.specs.Machine.Client.{bytes_held_by_fields, format_of, nothing_yet, reader_of, wants_input};
ghost use Rattle.git_client.specs.Machine.Client.{AreWhole, Asks, Feeds, ReceivesOn, Leaves, Pulls, RefusesToAsk};
ghost use Rattle.git_client.specs.Machine.AnyCalls.{AnyCall, MakesAny, choose, other, others_of, terms_after};
ghost use Rattle.git_client.specs.Machine.Choosing.{ChoosesFormat, format_by};
ghost use Rattle.git_client.specs.Machine.RunSteps.{CanCount};
ghost use Rattle.git_client.specs.Machine.Calls.{Call, Headline, IsTruncated, Makes, closes, feeds_in, history_after};
ghost use Rattle.git_client.specs.Machine.Calls.{ask, ask_refused, leave, pull, feed, close};
ghost use Rattle.git_client.specs.declared.client.Client.{Client};
ghost use Rattle.git_client.specs.declared.events.Received.{Received};
ghost use Rattle.git_client.specs.declared.events.Sent.{Sent};
ghost use Rattle.git_client.specs.declared.receiving.Counts.{Counts};

use std::alloc::Allocator;

/// No packet is both accepted and refused.
pub fn taken_or_refused()
    ensures { (t : Terms) (asked : List Asked) (before : List Pkt) (p : Pkt) (events : List EventValue) (kind : Kind)
        → GivesAt t asked before p events → RefusesAt t asked before p kind → ⊥ }
{}

/// A packet determines one list of events.
pub fn one_gift()
    ensures { (t : Terms) (asked : List Asked) (before : List Pkt) (p : Pkt) (events others : List EventValue)
        → GivesAt t asked before p events → GivesAt t asked before p others → events ≡ others }
{}

/// A packet is refused with one error.
pub fn one_refusal()
    ensures { (t : Terms) (asked : List Asked) (before : List Pkt) (p : Pkt) (kind other : Kind)
        → RefusesAt t asked before p kind → RefusesAt t asked before p other → kind ≡ other }
{}

/// For given requests, bytes determine one list of events, whatever their chunks.
pub fn one_event_list()
    ensures { (t : Terms) (asked : List Asked) (bytes : List ℕ) (events others : List EventValue)
        → HasEvents t asked bytes events → HasEvents t asked bytes others → events ≡ others }
{}

/// Bytes determine one set of noted capabilities, whatever their chunks.
pub fn one_note()
    ensures { (t : Terms) (asked : List Asked) (bytes : List ℕ) (caps others : Caps)
        → HasNoted t asked bytes caps → HasNoted t asked bytes others → caps ≡ others }
{}

/// Packets have one first error.
pub fn one_first_fault()
    ensures { (t : Terms) (asked : List Asked) (given : List Given) (kind other : Kind) (offset place : ℕ)
        → FirstFault t asked given kind offset → FirstFault t asked given other place → (kind ≡ other) × (offset ≡ place) }
{}

/// Bytes have one first malformed packet. The only other errors are those of an input that ended and of a stream that is
/// too long, each at one offset.
pub fn one_first_malformed()
    ensures shown { (t : Terms) (asked : List Asked) (bytes : List ℕ) (fault other : Fault)
        → FirstMalformed t asked bytes fault → FirstMalformed t asked bytes other
        → fault.kind ≢ Truncated → fault.kind ≢ StreamTooLong → fault ≡ other }
    ensures by_name { (t : Terms) (asked : List Asked) (bytes : List ℕ) (fault other : Fault)
        → FirstMalformed t asked bytes fault → FirstMalformed t asked bytes other → fault.kind ≡ other.kind → fault ≡ other }
{}

/// The events that a client has returned are those of the bytes that it used.
pub fn received_events<A: Allocator + Copy>()
    ensures { (t : Terms) (h : History) (client : Client A) → Converses t h client → HasEvents t h.asked h.used h.events }
{}

/// A client fails at the first error in the bytes that it used.
pub fn first_fault<A: Allocator + Copy>()
    ensures { (t : Terms) (h : History) (client : Client A) (fault : Fault)
        → Converses t h client → fault_of client ≡ Some fault → FirstMalformed t h.asked h.used fault }
{}

/// A client that has not failed has received nothing with an error.
pub fn no_fault<A: Allocator + Copy>()
    ensures { (t : Terms) (h : History) (client : Client A)
        → Converses t h client → fault_of client ≡ None → GoesWell t h.asked h.used h.events }
{}

/// A client that can ask has used exactly one whole advertisement and one whole response to each request.
pub fn whole_responses<A: Allocator + Copy>()
    ensures { (t : Terms) (h : History) (client : Client A)
        → Converses t h client → can_ask client ≡ true → IsConversation t h.asked h.used h.events }
{}

/// There are two definitions of a whole response, for packets that follow whole responses to the earlier requests: by the place of each
/// packet, and by the rule of the response's sections, which come one after another. They agree, and give the same events.
pub fn response_goes_by_its_sections()
    ensures { (t : Terms) (earlier : List Asked) (q : Asked) (before : List Pkt) (gs : List Given) (events : List EventValue)
        → AreWhole t earlier before → IsResponse t.format t.ending q (map (λ g. g.packet) gs) events
        ↔ (GiveAll t (earlier ++ q ∷ []) before gs events × AreWhole t (earlier ++ q ∷ []) (nearest gs before)) }
{}

/// There are two definitions of a whole conversation: by the place of each packet, and by its messages, which are an advertisement and then
/// a response to each request by the rule of its sections, one after another. They agree, and give the same events.
pub fn conversation_goes_by_its_messages()
    ensures { (t : Terms) (asked : List Asked) (bytes : List ℕ) (events : List EventValue)
        → IsConversation t asked bytes events ↔ GoesByMessages t asked bytes events }
{}

/// Later requests take nothing back: the events of a whole conversation stay the same if more is asked.
pub fn later_questions()
    ensures { (t : Terms) (asked more : List Asked) (bytes : List ℕ) (events : List EventValue)
        → IsConversation t asked bytes events → HasEvents t (asked ++ more) bytes events }
{}

/// A client that has nothing to send has sent exactly the written form of each request, and the flush if it has left.
pub fn all_is_sent<A: Allocator + Copy>()
    ensures { (t : Terms) (h : History) (client : Client A)
        → Converses t h client → left_to_send client ≡ [] → h.given ≡ spelled (sent_of t (caps_of client) h.asked h.left) }
{}

/// Bytes have one pack.
pub fn one_pack()
    ensures { (t : Terms) (asked : List Asked) (bytes pack other : List ℕ)
        → HasPack t asked bytes pack → HasPack t asked bytes other → pack ≡ other }
{}

/// The pack bytes that were returned are the pack of the bytes used, and so are those of a whole conversation.
pub fn received_pack()
    ensures all { (t : Terms) (asked : List Asked) (bytes : List ℕ) (events : List EventValue)
        → HasEvents t asked bytes events → HasPack t asked bytes (pack_bytes events) }
    ensures whole { (t : Terms) (asked : List Asked) (bytes : List ℕ) (events : List EventValue)
        → IsConversation t asked bytes events → HasPack t asked bytes (pack_bytes events) }
{}

/// A client never has more bytes than the longest packet and the limit of the request that it asks together.
pub fn client_holds_within_its_limit<A: Allocator + Copy>()
    ensures { (t : Terms) (h : History) (client : Client A) → Converses t h client → bytes_held client ≤ 65520 + limit_of client }
{}

/// The count of a client's bytes covers all its fields: its packet reader and the request that it asks. A new field must be added here.
pub fn all_fields_are_counted<A: Allocator + Copy>()
    ensures { (client : Client A) → bytes_held_by_fields client ≡ bytes_held client }
{}

/// The contract of each method ensures a call of the headline, and such calls follow one another: so the headline covers all calls that
/// a program makes.
pub fn methods_make_calls<A: Allocator + Copy>()
    ensures asked { (old new : Client A) (request : Request A) (steps : ℕ) → Asks old request new → Makes (ask request) steps old steps new }
    ensures refused { (old new : Client A) (request back : Request A) (fault : Fault) (steps : ℕ)
        → RefusesToAsk old request back fault new → Makes (ask_refused request back fault) steps old steps new }
    ensures left { (old new : Client A) (steps : ℕ) → Leaves old new → Makes leave steps old steps new }
    ensures pulled { (old new : Client A) (sent : Sent) (steps : ℕ) → Pulls old sent new → Makes (pull sent) steps old steps new }
    ensures fed { (old new : Client A) (chunk : List ℕ) (answer : Received) (before after : ℕ) → Feeds old chunk answer new
        → answer.used ≤ length chunk → Pays answer.used before after (credit_of (reader_of old)) (credit_of (reader_of new))
        → Makes (feed chunk answer) before old after new }
    ensures closed { (old new : Client A) (fault : Fault) (steps : ℕ) → wants_input old ≡ true → ReceivesOn old [] [] new
        → fault_of new ≡ Some fault → fault.kind ≡ Truncated
        → ((t : Terms) (h : History) (given : List Given) (rest : List ℕ) → Converses t h old → Splits 0 h.used given rest
        → fault.offset + length rest ≡ length h.used)
        → credit_of (reader_of new) ≤ credit_of (reader_of old) → Makes (close fault) steps old steps new }
    ensures chosen { (old new : Client A) (steps : ℕ) → ChoosesFormat old new → MakesAny (choose (format_of new)) steps old steps new }
    ensures any { (call : Call A) (before after : ℕ) (old new : Client A) → Makes call before old after new
        → MakesAny (other call) before old after new }
    ensures none { (client : Client A) (steps : ℕ) → MakesAll MakesAny [] steps client steps client }
    ensures more { (call : AnyCall A) (calls : List (AnyCall A)) (before next after : ℕ) (old between new : Client A)
        → MakesAny call before old next between → MakesAll MakesAny calls next between after new
        → MakesAll MakesAny (call ∷ calls) before old after new }
{}

/// Counts of bytes that are together at most the number of a client's events do not overflow with the events that it receives next.
pub fn counts_stay_below_their_end<A: Allocator + Copy>()
    ensures { (t : Terms) (h : History) (old new : Client A) (used : List ℕ) (events : List EventValue) (counts : Counts) → Converses t h old
        → ReceivesOn old used events new → counts.pack + counts.progress ≤ length h.events → CanCount counts events }
{}

/// A client of any format takes one that the server advertises, unless that advertises none that is known here.
pub fn chosen_format_is_advertised()
    ensures { (caps : Caps) (format : Format) → is_spoken caps format ≡ true → is_spoken caps (format_by caps) ≡ true }
{}

/// After any calls, a client that had not failed before them has failed with `Truncated` if and only if one of the calls closed its input.
pub fn truncated_where_closed<A: Allocator + Copy>()
    ensures { (t : Terms) (h : History) (calls : List (AnyCall A)) (before after : ℕ) (first last : Client A)
        → Converses t h first → fault_of first ≡ None → MakesAll MakesAny calls before first after last
        → (closes (others_of calls) ≡ true) ↔ IsTruncated last }
{}

/// Take a client that was new, of one object format or of any, any calls after that, and any chunks of input. The client then has no more
/// bytes than the longest packet and the limit of the request that it asks; it took at most 64 steps for each byte used and for each call of
/// `feed`; its events are those of the bytes; its pack bytes are the pack; and if it refused, it did so at the first malformed packet.
pub fn headline<A: Allocator + Copy>()
    ensures { (t : Terms) (calls : List (AnyCall A)) (before after : ℕ) (first last : Client A)
        → Converses t nothing_yet first → credit_of (reader_of first) ≡ 0 → MakesAll MakesAny calls before first after last
        → Headline (terms_after t calls) (history_after nothing_yet (others_of calls)) (feeds_in (others_of calls)) before after last }
{}
