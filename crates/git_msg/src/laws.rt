//! Laws that follow from the definitions alone: each law is the contract of a function without parameters.

ghost use Rattle.std.specs.Prelude.{Bool, ◌≡◌, ◌≤◌, ◌+◌, ℕ, List, [], ◌∷◌, Option, Some, true, length, map, sum_by};
ghost use Rattle.git_names.specs.ObjectName.{ObjectName};
ghost use Rattle.git_names.specs.RefName.{IsRefName};
ghost use Rattle.git_names.specs.declared.object_format.Format.{Format};
ghost use Rattle.git_pkt.specs.Packets.{Pkt};
ghost use Rattle.git_pkt.specs.Splits.{Given};
ghost use Rattle.git_pkt.specs.declared.fault.Kind.{Kind};
ghost use Rattle.git_msg.specs.declared.agent.Agent.{Agent};
ghost use Rattle.git_msg.specs.declared.arguments.Command.{Command};
ghost use Rattle.git_msg.specs.declared.offers.Caps.{Caps};
ghost use Rattle.git_msg.specs.declared.offers.Offer.{Offer};
ghost use Rattle.git_msg.specs.declared.requests.Request.{Request};
ghost use Rattle.git_msg.specs.declared.response_lines.Boundary.{Boundary};
ghost use Rattle.git_msg.specs.declared.response_lines.Info.{Info};
ghost use Rattle.git_msg.specs.Advertisement.{takes_command};
ghost use Rattle.git_msg.specs.Agents.{named_if};
ghost use Rattle.git_msg.specs.Arguments.{Arg, IsArgumentFault, IsNameIn, ReadsAs, stored_in, written_text};
ghost use Rattle.git_msg.specs.Asked.{Asked, AreInOrder, AreOffered, HasValues, arguments_in, asked_by, command_asked, written_bytes};
ghost use Rattle.git_msg.specs.Capability.{IsCapability, IsNoCapability};
ghost use Rattle.git_msg.specs.Checks.{Passes, Refuses};
ghost use Rattle.git_msg.specs.Machine.HeldRequest.{IsEmpty, AddsAll, Keeps, add_checks, asked_of, kept_of, stored_of};
ghost use Rattle.git_msg.specs.Lines.{Line, IsFormatMeant, IsLine, HasFault, end_checks};
ghost use Rattle.git_msg.specs.References.{Ref, IsReferenceFault, IsReferenceLine, IsWritable, reference_text};
ghost use Rattle.git_msg.specs.Requests.{Asks, FirstFault};
ghost use Rattle.git_msg.specs.Machine.HeldTexts.{texts_stored, texts_stored_by_fields};
ghost use Rattle.git_msg.specs.Machine.ArgumentLists.{stored, stored_by_fields as lists_stored_by_fields};
ghost use Rattle.git_msg.specs.Machine.Listings.{fetch_stored_by_fields, kept_stored_by_fields, ls_refs_stored_by_fields, object_info_stored_by_fields};
ghost use Rattle.git_msg.specs.Machine.RequestReader.{kept_so_far, limit_in, stored_by_fields, stored_so_far};
ghost use Rattle.git_msg.specs.declared.fetch.Fetch.TheInside.{Inside as FetchInside};
ghost use Rattle.git_msg.specs.declared.ls_refs.LsRefs.TheInside.{Inside as LsRefsInside};
ghost use Rattle.git_msg.specs.declared.object_info.ObjectInfo.TheInside.{Inside as ObjectInfoInside};
ghost use Rattle.git_msg.specs.declared.kept.KeptArguments.TheInside.{Inside as KeptInside};
ghost use Rattle.git_msg.specs.declared.lists.ArgumentLists.{ArgumentLists};
ghost use Rattle.git_msg.specs.declared.parts.Texts.{Texts};
ghost use Rattle.git_msg.specs.declared.limits.Budget.{Budget};
ghost use Rattle.git_msg.specs.declared.listing.Listing.TheInside.{Inside as ListingInside};
ghost use Rattle.git_msg.specs.Machine.Listings.{budget_stored_by_fields, listing_stored, listing_stored_by_fields};
ghost use Rattle.git_msg.specs.Machine.RequestStreams.{HasRead, bytes_held, bytes_held_by_fields, limit_of};
ghost use Rattle.git_msg.specs.declared.reader.RequestReader.{RequestReader};
ghost use Rattle.git_msg.specs.declared.streams.RequestStream.{RequestStream};
ghost use Rattle.git_msg.specs.ResponseLines.{Wanted, IsAckFault, IsAckLine, IsBoundaryFault, IsBoundaryLine, IsWantedFault, IsWantedLine};
ghost use Rattle.git_msg.specs.ResponseLines.{IsInfoFault, IsInfoLine, IsSize, ack_text, boundary_text, info_text, object_of, wanted_text};
ghost use Rattle.git_msg.specs.WrittenRequest.{lines_written, options_and_rest, options_apart};

use crate::limits::Limits;
use crate::memory::Memory;

// Texts of single lines.

/// A text is at most one capability.
#[tactic(auto, using(crate::proofs::Keys::one_capability))]
pub fn one_capability()
    ensures { (text key other : List ℕ) (value other_value : Option (List ℕ)) → IsCapability text key value
        → IsCapability text other other_value → (key ≡ other) × (value ≡ other_value) }
{}

/// A text is a capability or is not, never both.
#[tactic(auto, using(crate::proofs::Keys::capability_or_none))]
pub fn capability_or_none()
    ensures { (text key : List ℕ) (value : Option (List ℕ)) → IsCapability text key value → IsNoCapability text → ⊥ }
{}

/// A reference line is at most one reference.
pub fn one_reference()
    ensures { (format : Format) (text : List ℕ) (a b : Ref) → IsReferenceLine format text a → IsReferenceLine format text b → a ≡ b }
{}

/// A text is a reference line or is refused, never both, and it has at most one error.
pub fn reference_or_fault()
    ensures never_both { (format : Format) (text : List ℕ) (ref : Ref) (kind : Kind)
        → IsReferenceLine format text ref → IsReferenceFault format text kind → ⊥ }
    ensures one { (format : Format) (text : List ℕ) (kind other : Kind)
        → IsReferenceFault format text kind → IsReferenceFault format text other → kind ≡ other }
{}

/// The text of an argument line is at most one argument of a command.
pub fn one_argument()
    ensures { (command : Command) (offer : Offer) (text : List ℕ) (a b : Arg)
        → ReadsAs command offer text a → ReadsAs command offer text b → a ≡ b }
{}

/// A text is an argument of a command or is refused, never both, and it has at most one error.
pub fn argument_or_fault()
    ensures never_both { (command : Command) (offer : Offer) (text : List ℕ) (arg : Arg) (kind : Kind)
        → ReadsAs command offer text arg → IsArgumentFault command offer text kind → ⊥ }
    ensures one { (command : Command) (offer : Offer) (text : List ℕ) (kind other : Kind)
        → IsArgumentFault command offer text kind → IsArgumentFault command offer text other → kind ≡ other }
{}

/// A text acknowledges at most one object.
pub fn one_ack()
    ensures { (format : Format) (text : List ℕ) (a b : ObjectName) → IsAckLine format text a → IsAckLine format text b → a ≡ b }
{}

/// A text is at most one line of the shallow boundary.
#[tactic(auto, using(crate::proofs::ResponseLines::one_boundary))]
pub fn one_boundary()
    ensures { (format : Format) (text : List ℕ) (a b : Boundary) → IsBoundaryLine format text a → IsBoundaryLine format text b → a ≡ b }
{}

/// A text is at most one wanted reference.
pub fn one_wanted()
    ensures { (format : Format) (text : List ℕ) (a b : Wanted) → IsWantedLine format text a → IsWantedLine format text b → a ≡ b }
{}

/// A text is at most one line of the response to object-info.
pub fn one_info()
    ensures { (format : Format) (text : List ℕ) (a b : Info) → IsInfoLine format text a → IsInfoLine format text b → a ≡ b }
{}

/// A text acknowledges an object or is refused, never both, and it has at most one error.
#[tactic(auto, using(crate::proofs::ResponseFaults::ack_or_fault, crate::proofs::ResponseFaults::one_ack_fault))]
pub fn ack_or_fault()
    ensures never_both { (format : Format) (text : List ℕ) (id : ObjectName) (kind : Kind)
        → IsAckLine format text id → IsAckFault format text kind → ⊥ }
    ensures one_name { (format : Format) (text : List ℕ) (kind other : Kind)
        → IsAckFault format text kind → IsAckFault format text other → kind ≡ other }
{}

/// A text is a line of the shallow boundary or is refused, never both, and it has at most one error.
#[tactic(auto, using(crate::proofs::ResponseFaults::boundary_or_fault, crate::proofs::ResponseFaults::one_boundary_fault))]
pub fn boundary_or_fault()
    ensures never_both { (format : Format) (text : List ℕ) (line : Boundary) (kind : Kind)
        → IsBoundaryLine format text line → IsBoundaryFault format text kind → ⊥ }
    ensures one_name { (format : Format) (text : List ℕ) (kind other : Kind)
        → IsBoundaryFault format text kind → IsBoundaryFault format text other → kind ≡ other }
{}

/// A text is a wanted reference or is refused, never both, and it has at most one error.
pub fn wanted_or_fault()
    ensures never_both { (format : Format) (text : List ℕ) (wanted : Wanted) (kind : Kind)
        → IsWantedLine format text wanted → IsWantedFault format text kind → ⊥ }
    ensures one_name { (format : Format) (text : List ℕ) (kind other : Kind)
        → IsWantedFault format text kind → IsWantedFault format text other → kind ≡ other }
{}

/// A text is a line of the response to object-info or is refused, never both, and it has at most one error.
pub fn info_or_fault()
    ensures never_both { (format : Format) (text : List ℕ) (info : Info) (kind : Kind)
        → IsInfoLine format text info → IsInfoFault format text kind → ⊥ }
    ensures one_name { (format : Format) (text : List ℕ) (kind other : Kind)
        → IsInfoFault format text kind → IsInfoFault format text other → kind ≡ other }
{}

/// The written line of a reference is that reference, if its object names have the format.
#[tactic(auto, using(crate::proofs::ReferenceLaws::reference_reads_back))]
pub fn written_reference_reads_back()
    ensures { (format : Format) (ref : Ref) → ((id : ObjectName) → ref.id ≡ Some id → IsNameIn format id)
        → ((peeled : ObjectName) → ref.peeled ≡ Some peeled → IsNameIn format peeled) → IsWritable ref → IsReferenceLine format (reference_text ref) ref }
{}

/// The written line of an acknowledgment acknowledges that object.
#[tactic(auto, using(crate::proofs::ResponseLines::ack_reads_back))]
pub fn written_ack_reads_back()
    ensures { (format : Format) (id : ObjectName) → IsNameIn format id → IsAckLine format (ack_text id) id }
{}

/// The written line of the shallow boundary is that line.
#[tactic(auto, using(crate::proofs::ResponseLines::boundary_reads_back))]
pub fn written_boundary_reads_back()
    ensures { (format : Format) (line : Boundary) → IsNameIn format (object_of line) → IsBoundaryLine format (boundary_text line) line }
{}

/// The written line of a wanted reference is that reference, if its name is a reference name.
#[tactic(auto, using(crate::proofs::ResponseLines::wanted_reads_back))]
pub fn written_wanted_reads_back()
    ensures { (format : Format) (wanted : Wanted) → IsNameIn format wanted.id → IsRefName wanted.name
        → IsWantedLine format (wanted_text wanted) wanted }
{}

/// The written line of an object and its size is that object and size, if the size fits 64 bits.
#[tactic(auto, using(crate::proofs::ResponseLines::info_reads_back))]
pub fn written_info_reads_back()
    ensures { (format : Format) (info : Info) → IsNameIn format info.id → ((size : ℕ) → info.size ≡ Some size → IsSize size)
        → IsInfoLine format (info_text info) info }
{}

// Packets of requests.

/// A packet of a request is no line if something refuses it.
#[tactic(auto, using(crate::proofs::LineLaws::line_or_fault))]
pub fn line_or_fault()
    ensures { (offer : Offer) (limit : ℕ) (before : List Line) (packet : Pkt) (line : Line) (kind : Kind)
        → IsLine offer limit before packet line → HasFault offer limit before packet kind → ⊥ }
{}

/// A packet of a request is at most one line.
#[tactic(auto, using(crate::proofs::LineLaws::one_line))]
pub fn one_line()
    ensures { (offer : Offer) (limit : ℕ) (before : List Line) (packet : Pkt) (line other : Line)
        → IsLine offer limit before packet line → IsLine offer limit before packet other → line ≡ other }
{}

/// A packet of a request has at most one error.
#[tactic(auto, using(crate::proofs::LineLaws::one_fault))]
pub fn one_fault()
    ensures { (offer : Offer) (limit : ℕ) (before : List Line) (packet : Pkt) (kind other : Kind)
        → HasFault offer limit before packet kind → HasFault offer limit before packet other → kind ≡ other }
{}

/// Packets are at most one request.
pub fn one_request()
    ensures { (offer : Offer) (limit : ℕ) (packets : List Given) (asked other : Asked) (kept other_kept : ℕ)
        → Asks offer limit packets asked kept → Asks offer limit packets other other_kept
        → (asked ≡ other) × (kept ≡ other_kept) }
{}

/// Nothing refuses a packet of a whole request.
pub fn no_fault_in_request()
    ensures { (offer : Offer) (limit : ℕ) (packets : List Given) (asked : Asked) (kept : ℕ) (kind : Kind) (offset : ℕ)
        → Asks offer limit packets asked kept → FirstFault offer limit packets kind offset → ⊥ }
{}

/// Packets have at most one first fault.
pub fn one_first_fault()
    ensures { (offer : Offer) (limit : ℕ) (packets : List Given) (kind other : Kind) (offset place : ℕ)
        → FirstFault offer limit packets kind offset → FirstFault offer limit packets other place
        → (kind ≡ other) × (offset ≡ place) }
{}

/// The packets that are written for a request are a request for the same, whatever their offsets, if these conditions hold:
/// the format is that of the reader; each argument is allowed in such a request; the reader advertises the command and the
/// features that the arguments need (as `shallow` for `deepen`: a reader that does not advertise it refuses the line); the
/// texts of its lines are within the limit; and nothing refuses the request at its end, as it refuses a fetch without a
/// want. For SHA-256, `object-format` has to be advertised.
pub fn written_request_reads_back()
    ensures { (offer : Offer) (limit : ℕ) (caps : Caps) (agent : Agent) (asked : Asked) (packets : List Given)
        → IsFormatMeant offer.format caps.object_format → takes_command offer (command_asked asked) ≡ true
        → HasValues offer.format asked → AreOffered offer asked
        → written_bytes asked ≤ limit → Passes (end_checks asked)
        → map (λ g. g.packet) packets ≡ lines_written (named_if caps.agent agent) caps.object_format offer.format asked
        → Asks offer limit packets asked (written_bytes asked) }
{}

/// Of a request's arguments, in their order, the server options are written first, then the object format, if it is named, and
/// then, after the delimiter, all the others.
#[tactic(auto, using(crate::proofs::OptionsFirst::options_apart_of))]
pub fn server_options_are_written_apart()
    ensures { (object_format : Bool) (format : Format) (args : List Arg) → AreInOrder args
        → options_and_rest object_format format args ≡ options_apart object_format format args }
{}

// Requests that a program builds.

/// An argument that a program adds passes the checks or is refused, never both, and it has at most one error. Lack of memory is reported
/// only for an argument that passes.
#[tactic(auto, using(crate::proofs::Values::added_or_refused, crate::proofs::Values::one_refusal))]
pub fn add_passes_or_is_refused<A: Memory + Copy>()
    ensures never_both { (request : Request A) (arg : Arg) (kind : Kind)
        → Passes (add_checks request arg) → Refuses (add_checks request arg) kind → ⊥ }
    ensures one { (request : Request A) (arg : Arg) (kind other : Kind)
        → Refuses (add_checks request arg) kind → Refuses (add_checks request arg) other → kind ≡ other }
{}

/// The default limit on the texts of a request's argument lines and server options is 16 MiB.
pub fn default_limit()
    ensures { Limits.DEFAULT_ARGS ≡ 16777216 }
{}

/// If arguments were added one after the other to an empty request, it asks for what the list of them contains, and has kept
/// as many bytes as the texts of their lines have.
pub fn added_arguments_are_asked_for<A: Memory + Copy>()
    ensures asked { (command : Command) (format : Format) (limit : ℕ) (args : List Arg) (empty request : Request A)
        → IsEmpty command format limit empty → AddsAll empty args request → asked_of request ≡ asked_by command args }
    ensures kept { (command : Command) (format : Format) (limit : ℕ) (args : List Arg) (empty request : Request A)
        → IsEmpty command format limit empty → AddsAll empty args request → kept_of request ≡ sum_by (λ arg. length (written_text arg)) args }
    ensures stored { (command : Command) (format : Format) (limit : ℕ) (args : List Arg) (empty request : Request A)
        → IsEmpty command format limit empty → AddsAll empty args request → stored_of request ≡ sum_by stored_in args }
{}

/// Arguments are added one after the other, if each was added as the contract of `Request::add` ensures.
pub fn additions_follow_one_another<A: Memory + Copy>()
    ensures none { (request : Request A) → AddsAll request [] request }
    ensures more { (old next new : Request A) (arg : Arg) (args : List Arg)
        → Keeps old arg (length (written_text arg)) next → AddsAll next args new → AddsAll old (arg ∷ args) new }
{}

/// The bytes that are counted for each part that stores bytes are those of its fields. A new field has to be named here.
pub fn all_fields_are_counted<A: Memory + Copy>()
    ensures texts { (texts : Texts A) → texts_stored_by_fields texts ≡ texts_stored texts }
    ensures lists { (lists : ArgumentLists A) → lists_stored_by_fields lists ≡ stored lists }
    ensures arguments { (arguments : KeptInside A) → kept_stored_by_fields arguments ≡ stored arguments.lists }
    ensures ls_refs { (request : LsRefsInside A) → ls_refs_stored_by_fields request ≡ request.arguments.stored }
    ensures fetch { (request : FetchInside A) → fetch_stored_by_fields request ≡ request.arguments.stored }
    ensures object_info { (request : ObjectInfoInside A) → object_info_stored_by_fields request ≡ request.arguments.stored }
    ensures listing { (listing : ListingInside A) → listing_stored_by_fields listing ≡ listing_stored listing }
    ensures budget { (budget : Budget) → budget_stored_by_fields budget ≡ 0 }
    ensures reader { (reader : RequestReader A) → stored_by_fields reader ≡ stored_so_far reader }
    ensures stream { (stream : RequestStream A) → bytes_held_by_fields stream ≡ bytes_held stream }
{}

/// A reader of requests never stores more bytes than it counts, and never counts more than its limit.
pub fn request_reader_keeps_within_its_limit<A: Memory + Copy>()
    ensures stored { (reader : RequestReader A) → stored_so_far reader ≤ kept_so_far reader }
    ensures kept { (reader : RequestReader A) → kept_so_far reader ≤ limit_in reader }
{}

/// A reader of requests from bytes never holds more bytes than its limit and the length of the longest packet together.
pub fn request_stream_holds_within_its_limit<A: Memory + Copy>()
    ensures { (used : List ℕ) (asked : List Asked) (stream : RequestStream A)
        → HasRead used asked stream → bytes_held stream ≤ 65520 + limit_of stream }
{}

/// The arguments of a request, in the order in which they are written, ask for exactly what the request asks for.
#[tactic(auto, using(crate::proofs::ArgumentsInOrder::arguments_in_order))]
pub fn arguments_in_order()
    ensures { (command : Command) (args : List Arg) → asked_by command (arguments_in (asked_by command args)) ≡ asked_by command args }
{}
