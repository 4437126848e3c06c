//! Laws on what `show_view` shows.

ghost use Rattle.std.specs.Prelude.{◌≡◌, ◌<◌, ◌≤◌, ◌^◌, ◌++◌, ℕ, Bool, List, None, Some, codes, false, length, min, true};
ghost use Rattle.std.specs.Borrow.{Bor};
ghost use Rattle.std.specs.List.{All};
ghost use Rattle.json.specs.Json.{document};
ghost use Rattle.git_pkt.specs.Packets.{body_of, longest_payload};
ghost use Rattle.git_pkt.specs.Splits.{Given};
ghost use Rattle.git2show_lib.specs.JsonLines.{json_line, json_value};
ghost use Rattle.git2show_lib.specs.PacketViews.{first_of, of_any_command, requests_with, shown, strays, tally_of};
ghost use Rattle.git2show_lib.specs.PrettyLines.{IsPrintable, colour_of, label_of, name_of, pretty_line};
ghost use Rattle.git2show_lib.specs.declared.views.RequestState.{RequestState};
ghost use Rattle.git2show_lib.specs.declared.views.Tally.{Tally};
ghost use Rattle.git2show_lib.specs.declared.views.View.{View};

/// A line of JSON is a text, which reads back as the object of its packet, and an LF.
pub fn json_lines_read_back()
    ensures { (g : Given) → g.offset < 2 ^ 64 → length (body_of g.packet) < 2 ^ 64
        → (text : List ℕ) × (json_line g ≡ text ++ codes "\n") × (document text ≡ Some (json_value g)) }
{}

/// A view that looks for a command shows of a client's stream what it shows, without that, of the packets of the requests with the command:
/// of each from its first packet to its flush, each once, in order. The first packet that stands where a request begins, and begins none, is
/// found wherever it is.
pub fn only_shows_requests()
    ensures shown { (view : View) (word : Bor (List ℕ)) (start : Tally) (given : List Given) → view.only ≡ Some word
        → start.request ≡ RequestState.Between → start.in_pack ≡ false
        → shown (Some view) start given ≡ shown (Some (of_any_command view)) start (requests_with word.now given) }
    ensures stray { (view : View) (word : Bor (List ℕ)) (start : Tally) (given : List Given) → view.only ≡ Some word
        → start.request ≡ RequestState.Between → start.stray ≡ None → (tally_of (Some view) start given).stray ≡ first_of (strays given) }
{}

/// The line of a packet in columns has at most as many columns as its view states, from 40 to 200, with a byte in each: all of it but the LF is
/// printable ASCII. Colours change only how the name of the packet's kind is written.
pub fn pretty_lines_fit()
    ensures fits { (width : ℕ) (in_pack : Bool) (g : Given) → 40 ≤ width → g.offset < 2 ^ 64 → length (body_of g.packet) ≤ longest_payload
        → (text : List ℕ) × (pretty_line false width in_pack g ≡ text ++ codes "\n") × (length text ≤ min width 200) }
    ensures printable { (width : ℕ) (in_pack : Bool) (g : Given) → g.offset < 2 ^ 64 → length (body_of g.packet) ≤ longest_payload
        → All (λ b. b < 256) (body_of g.packet)
        → (text : List ℕ) × (pretty_line false width in_pack g ≡ text ++ codes "\n") × All IsPrintable text }
    ensures colours { (width : ℕ) (in_pack : Bool) (g : Given) → (before : List ℕ) × (after : List ℕ)
        × (pretty_line false width in_pack g ≡ before ++ name_of (label_of in_pack g.packet) ++ after)
        × (pretty_line true width in_pack g
        ≡ before ++ (colour_of (label_of in_pack g.packet) ++ name_of (label_of in_pack g.packet) ++ codes "\u{1b}[0m") ++ after) }
{}
