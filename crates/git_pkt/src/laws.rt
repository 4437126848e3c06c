//! Laws that follow from the definitions alone: each law is the contract of a function without parameters.

ghost use Rattle.std.specs.Prelude.{◌≡◌, ◌≢◌, ◌⊎◌, ◌≤◌, ◌∷◌, ◌++◌, ℕ, List, [], Some, None, false, length, take, true};
ghost use Rattle.git_pkt.specs.Bands.{IsNoBand, byte_of};
ghost use Rattle.git_pkt.specs.Packets.{Pkt, Spells, body_of, spelling_of, text_of, longest_payload};
ghost use Rattle.git_pkt.specs.Splits.{Given, NoneBegins, Splits};
ghost use Rattle.git_pkt.specs.Faults.{IsOpen, RestFault, ShowsAtEnd};
ghost use Rattle.git_pkt.specs.Machine.PacketReader.{Holds, HoldsAll, Reads, bytes_held, bytes_held_by_fields, fault_of, is_open, open_length, passes_of};
ghost use Rattle.git_pkt.specs.Machine.PacketReader.{position_of, rest_of};
ghost use Rattle.git_pkt.specs.Machine.BandCalls.{AllGoes, AreFed, BandCall};
ghost use Rattle.git_pkt.specs.Machine.BandReader.{FeedsBand};
ghost use Rattle.git_pkt.specs.declared.band.Band.{Band};
ghost use Rattle.git_pkt.specs.declared.fault.Fault.{Fault};
ghost use Rattle.git_pkt.specs.declared.fault.Kind.{Kind};
ghost use Rattle.git_pkt.specs.declared.fault.Kind.TheVariants.{StreamTooLong, Truncated};
ghost use Rattle.git_pkt.specs.declared.reader.PacketReader.{PacketReader};

/// No spelling is a proper beginning of another.
pub fn no_spelling_begins_another()
    ensures { (p q : Pkt) (s more : List ℕ) → Spells p s → Spells q (s ++ more) → (more ≡ []) × (p ≡ q) }
{}

/// A stream splits into packets and a rest in only one way.
pub fn one_split()
    ensures { (start : ℕ) (bytes : List ℕ) (given others : List Given) (rest other_rest : List ℕ)
        → Splits start bytes given rest → Splits start bytes others other_rest → (given ≡ others) × (rest ≡ other_rest) }
{}

/// The written form of a packet is a spelling of it.
pub fn written_form_is_a_spelling()
    ensures { (p : Pkt) → length (body_of p) ≤ longest_payload → Spells p (spelling_of p) }
{}

/// A spelling spells only one packet.
pub fn spelling_of_one_packet()
    ensures { (p q : Pkt) (s : List ℕ) → Spells p s → Spells q s → p ≡ q }
{}

/// Every stream splits into packets and a rest.
pub fn every_stream_splits()
    ensures { (start : ℕ) (bytes : List ℕ) → (given : List Given) × (rest : List ℕ) × Splits start bytes given rest }
{}

/// A rest is open or has a fault, never both, and it has at most one fault.
pub fn open_or_one_fault()
    ensures either { (p : ℕ) (rest : List ℕ) → IsOpen rest ⊎ ((fault : Fault) × RestFault p rest fault) }
    ensures never_both { (p : ℕ) (rest : List ℕ) (fault : Fault) → IsOpen rest → RestFault p rest fault → ⊥ }
    ensures one { (p : ℕ) (rest : List ℕ) (fault other : Fault) → RestFault p rest fault → RestFault p rest other → fault ≡ other }
{}

/// An open rest may still become a packet: it is a proper beginning of some packet's spelling.
pub fn open_rest_begins_a_packet()
    ensures { (rest : List ℕ) → IsOpen rest → NoneBegins rest
        → (p : Pkt) × (more : List ℕ) × (more ≢ []) × Spells p (rest ++ more) }
{}

/// A rest that has a fault never becomes a packet, whatever bytes follow.
pub fn faulty_rest_begins_no_packet()
    ensures { (p : ℕ) (rest more : List ℕ) (fault : Fault) → RestFault p rest fault → NoneBegins (rest ++ more) }
{}

/// A fault stays as it is when more bytes come.
pub fn fault_stays()
    ensures { (p : ℕ) (rest more : List ℕ) (fault : Fault) → RestFault p rest fault → RestFault p (rest ++ more) fault }
{}

/// One byte of a rest that has a fault shows that fault, wherever the bytes were cut.
pub fn fault_shows_with_one_byte()
    ensures somewhere { (p : ℕ) (rest : List ℕ) (fault : Fault) → RestFault p rest fault
        → (n : ℕ) × (n ≤ length rest) × RestFault p (take n rest) fault × ShowsAtEnd (take n rest) }
    ensures once { (p q : ℕ) (shown more other later : List ℕ) (fault next : Fault) → shown ++ more ≡ other ++ later
        → RestFault p shown fault → ShowsAtEnd shown → RestFault q other next → ShowsAtEnd other → shown ≡ other }
{}

/// A reader knows whether the rest is empty, and how long it is. If an open packet's bytes do not pass, the reader holds all
/// of them that have come.
pub fn reader_knows_its_rest()
    ensures between { (r : PacketReader) (rest : List ℕ) → Holds r rest → is_open r ≡ false → rest ≡ [] }
    ensures inside { (r : PacketReader) (rest : List ℕ) → Holds r rest → is_open r ≡ true → rest ≢ [] }
    ensures long { (r : PacketReader) (rest : List ℕ) → Holds r rest → open_length r ≡ length rest }
    ensures all { (r : PacketReader) → passes_of r ≡ false → HoldsAll r }
{}

/// The bytes that are counted for a reader are those of its fields: its hold. A new field has to be named here.
pub fn all_fields_are_counted()
    ensures { (r : PacketReader) → bytes_held_by_fields r ≡ bytes_held r }
{}

/// After any calls of `feed_band`, the parts that they handed out, joined, are the bytes that pass of the rest and of the
/// packets that became whole since; the calls returned those packets that are on no band whose bytes pass. From the start of
/// a stream, or from between two packets, where the rest was empty, these are all parts so far.
pub fn parts_join_to_what_passes()
    ensures { (calls : List BandCall) (old new : PacketReader) (start : ℕ) (bytes : List ℕ) (given : List Given) (rest : List ℕ)
        → AreFed old calls new → Reads old start bytes given rest → AllGoes start bytes given rest calls new }
{}

/// Calls of `feed_band` follow one another, if each did what the contract of `feed_band` ensures.
pub fn band_calls_follow_one_another()
    ensures none { (r : PacketReader) → AreFed r [] r }
    ensures more { (old between new : PacketReader) (call : BandCall) (calls : List BandCall)
        → FeedsBand old call.chunk call.fed between → AreFed between calls new → AreFed old (call ∷ calls) new }
{}

/// Readers of the same bytes returned the same packets and have the same rest, however the bytes came; those that hold all
/// of the rest hold the same bytes.
pub fn one_answer_however_cut()
    ensures packets { (r s : PacketReader) (start : ℕ) (bytes : List ℕ) (given others : List Given) (rest other_rest : List ℕ)
        → Reads r start bytes given rest → Reads s start bytes others other_rest → given ≡ others }
    ensures remains { (r s : PacketReader) (start : ℕ) (bytes : List ℕ) (given others : List Given) (rest other_rest : List ℕ)
        → Reads r start bytes given rest → Reads s start bytes others other_rest → rest ≡ other_rest }
    ensures position { (r s : PacketReader) (start : ℕ) (bytes : List ℕ) (given others : List Given) (rest other_rest : List ℕ)
        → Reads r start bytes given rest → Reads s start bytes others other_rest → position_of r ≡ position_of s }
    ensures held { (r s : PacketReader) (start : ℕ) (bytes : List ℕ) (given others : List Given) (rest other_rest : List ℕ)
        → Reads r start bytes given rest → Reads s start bytes others other_rest
        → fault_of r ≡ None → fault_of s ≡ None → HoldsAll r → HoldsAll s → rest_of r ≡ rest_of s }
{}

/// Every reader of some bytes reports a fault that the bytes show; the two other faults, for the end of the input and of the
/// stream's positions, each have only one offset.
pub fn one_fault_however_cut()
    ensures announced_by_all { (r s : PacketReader) (start : ℕ) (bytes : List ℕ) (given others : List Given) (rest other_rest : List ℕ) (fault : Fault)
        → Reads r start bytes given rest → Reads s start bytes others other_rest
        → fault_of r ≡ Some fault → fault.kind ≢ Truncated → fault.kind ≢ StreamTooLong → fault_of s ≡ Some fault }
    ensures one_by_name { (r s : PacketReader) (start : ℕ) (bytes : List ℕ) (given others : List Given) (rest other_rest : List ℕ) (fault other : Fault)
        → Reads r start bytes given rest → Reads s start bytes others other_rest
        → fault_of r ≡ Some fault → fault_of s ≡ Some other → fault.kind ≡ other.kind → fault ≡ other }
{}

/// A payload's text is the payload itself, or lacks one LF at its end and nothing else.
pub fn text_lacks_one_line_end()
    ensures one { (bytes : List ℕ) → (text_of bytes ≡ bytes) ⊎ (bytes ≡ text_of bytes ++ 10 ∷ []) }
    ensures taken_off { (text : List ℕ) → text_of (text ++ 10 ∷ []) ≡ text }
    ensures else_kept { (text : List ℕ) (byte : ℕ) → byte ≢ 10 → text_of (text ++ byte ∷ []) ≡ text ++ byte ∷ [] }
    ensures nothing { text_of [] ≡ [] }
{}

/// A payload has at most one band and one part after it.
pub fn one_band()
    ensures { (bytes part more : List ℕ) (band other : Band) → bytes ≡ byte_of band ∷ part → bytes ≡ byte_of other ∷ more
        → (band ≡ other) × (part ≡ more) }
{}

/// A payload has a band or is refused, never both, and it has at most one error.
pub fn band_or_fault()
    ensures never_both { (bytes part : List ℕ) (band : Band) (kind : Kind) → bytes ≡ byte_of band ∷ part → IsNoBand bytes kind → ⊥ }
    ensures one_name { (bytes : List ℕ) (kind other : Kind) → IsNoBand bytes kind → IsNoBand bytes other → kind ≡ other }
{}
