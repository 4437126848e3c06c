//! Packets: how bytes split into them, what is wrong with a rest, and the texts of payloads.

ghost use Rattle.std.specs.Prelude.{◌≡◌, ◌≢◌, ◌++◌, ◌∷◌, [], List, codes, length, ℕ};
ghost use Rattle.git_pkt.specs.Escape.{escaped_of};
ghost use Rattle.git_pkt.specs.Faults.{IsOpen, IsRefused, RestFault, ShowsAtEnd, StopsBy, last_position};
ghost use Rattle.git_pkt.specs.Packets.{delim, flush, payload, resp_end, text_of};
ghost use Rattle.git_pkt.specs.Splits.{Splits};
ghost use Rattle.git_pkt.specs.declared.fault.Kind.TheVariants.{BadDigit, BadLength, StreamTooLong, TooLong, Truncated};
ghost use Rattle.git_rows.specs.Worked.{at, fault_at};

/// A stream with each kind of packet, and an empty payload.
pub fn packets_of_each_kind()
    ensures these { Splits 0 (codes "0006a\n0005a000bfoobar\n0004000100020000")
        (at 0 (payload (codes "a\n")) ∷ at 6 (payload (codes "a")) ∷ at 11 (payload (codes "foobar\n")) ∷ at 22 (payload []) ∷ at 26 delim
        ∷ at 30 resp_end ∷ at 34 flush ∷ []) [] }
    ensures none_at_another_offset { ¬ Splits 0 (codes "0000") (at 1 flush ∷ []) [] }
    ensures none_of_another_payload { ¬ Splits 0 (codes "0005a") (at 0 (payload (codes "b")) ∷ []) [] }
    ensures none_of_another_kind { ¬ Splits 0 (codes "0001") (at 0 flush ∷ []) [] }
    ensures none_left { ¬ Splits 0 (codes "0005a") [] (codes "0005a") }
{}

/// The digits of a length in either case.
pub fn digits_of_either_case()
    ensures upper { Splits 0 (codes "000Aabcdef") (at 0 (payload (codes "abcdef")) ∷ []) [] }
    ensures lower { Splits 0 (codes "000aABCDEF") (at 0 (payload (codes "ABCDEF")) ∷ []) [] }
    ensures no_other_letter { ¬ Splits 0 (codes "000gabcdef") (at 0 (payload (codes "abcdef")) ∷ []) [] }
{}

/// A payload of the most bytes that a packet takes, and after it the length of one byte more.
pub fn longest_packet_then_too_long()
    ensures taken { (bytes : List ℕ) → length bytes ≡ 65516
        → Splits 0 (codes "fff0" ++ bytes ++ codes "fff1") (at 0 (payload bytes) ∷ []) (codes "fff1") }
    ensures refused { RestFault 65520 (codes "fff1") (fault_at TooLong 65520) }
    ensures shown_by_the_fourth_digit { ShowsAtEnd (codes "fff1") }
    ensures longest_not_refused { ¬ IsRefused 0 (codes "fff0") TooLong 0 }
    ensures not_a_longer_one { (bytes : List ℕ) → length bytes ≡ 65517
        → ¬ Splits 0 (codes "fff1" ++ bytes) (at 0 (payload bytes) ∷ []) [] }
{}

/// A packet of three bytes, which would lack a digit of its own length.
pub fn length_of_three()
    ensures left { Splits 0 (codes "0003") [] (codes "0003") }
    ensures refused { RestFault 0 (codes "0003") (fault_at BadLength 0) }
    ensures four_not_refused { ¬ IsRefused 0 (codes "0004") BadLength 0 }
    ensures not_at_another_offset { ¬ IsRefused 0 (codes "0003") BadLength 3 }
    ensures not_by_another_name { ¬ IsRefused 0 (codes "0003") TooLong 0 }
    ensures not_open { ¬ IsOpen (codes "0003") }
    ensures not_shown_later { ¬ ShowsAtEnd (codes "0003a") }
{}

/// A letter among the four digits of a length: it is reported at its byte, as soon as it comes.
pub fn letter_among_the_digits()
    ensures refused { StopsBy 0 (codes "00g") 3 BadDigit 2 }
    ensures not_at_another_byte { ¬ IsRefused 0 (codes "00g") BadDigit 1 }
    ensures not_the_second { ¬ IsRefused 0 (codes "0gg") BadDigit 2 }
    ensures digits_not_refused { ¬ IsRefused 0 (codes "00a") BadDigit 2 }
    ensures not_open { ¬ IsOpen (codes "00g") }
{}

/// The beginning of a packet, at which the input ends.
pub fn packet_cut_short()
    ensures left { Splits 0 (codes "0009ab") [] (codes "0009ab") }
    ensures still_open { IsOpen (codes "0009ab") }
    ensures truncated { StopsBy 0 (codes "0009ab") 6 Truncated 0 }
    ensures not_between_packets { ¬ StopsBy 0 [] 0 Truncated 0 }
    ensures not_at_the_end { ¬ StopsBy 0 (codes "0009ab") 6 Truncated 6 }
    ensures not_where_it_is_refused { ¬ StopsBy 0 (codes "0003") 4 Truncated 0 }
{}

/// A packet that ends at the last position of a stream.
pub fn stream_to_its_last_position()
    ensures taken { Splits 9223372036854775801 (codes "0006a\n") (at 9223372036854775801 (payload (codes "a\n")) ∷ []) [] }
    ensures too_long { StopsBy last_position [] last_position StreamTooLong 9223372036854775807 }
    ensures not_before { ¬ StopsBy 9223372036854775806 [] 9223372036854775806 StreamTooLong 9223372036854775806 }
{}

/// Texts of payloads, which lack one LF at their end.
pub fn texts_of_payloads()
    ensures one_line_end { text_of (codes "a\n\n") ≡ codes "a\n" }
    ensures no_line_end { text_of (codes "a") ≡ codes "a" }
    ensures line_end_alone { text_of (codes "\n") ≡ [] }
    ensures nothing { text_of [] ≡ [] }
    ensures not_with_its_line_end { text_of (codes "a\n") ≢ codes "a\n" }
    ensures not_without_two { text_of (codes "a\n\n") ≢ codes "a" }
    ensures not_at_the_front { text_of (codes "\na") ≢ codes "a" }
{}

/// Bytes as they are shown on one line.
#[tactic(auto, unfolding(git_pkt::specs::Escape::escape_of, git_names::specs::Digits::lower_digit))]
pub fn bytes_shown_on_a_line()
    ensures shown { escaped_of (10 ∷ 92 ∷ 0 ∷ 31 ∷ 32 ∷ 126 ∷ 127 ∷ 255 ∷ []) ≡ codes "\\n\\\\\\x00\\x1f ~\\x7f\\xff" }
    ensures not_as_it_is { escaped_of (10 ∷ []) ≢ 10 ∷ [] }
    ensures not_in_upper_case { escaped_of (255 ∷ []) ≢ codes "\\xFF" }
{}
