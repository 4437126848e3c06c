//! Laws on traces.

ghost use Rattle.std.specs.Prelude.{◌≡◌, ◌<◌, ◌++◌, [], ℕ, Bool, List, None, Some, codes, length, true};
ghost use Rattle.std.specs.List.{All, filter, list_all};
ghost use Rattle.git_trace.specs.Escapes.{IsClear, is_written, unescaped, written};
ghost use Rattle.git_trace.specs.ShownLines.{arrow, shown_line, spaces};
ghost use Rattle.git_trace.specs.TraceLines.{Traced, after_word, is_name_byte, content_in, traced_in, without_return};
ghost use Rattle.git_trace.specs.declared.shown_lines.Look.{Look};
ghost use Rattle.git_trace.specs.declared.trace_lines.Direction.{Direction};

/// A line is read as its parts: a front, the first `packet: `, spaces, a name, `<` or `>`, a space and a content, with no CR at the end.
pub fn lines_are_read()
    ensures { (front name content line : List ℕ) (pad : ℕ) (direction : Direction)
        → line ≡ front ++ codes "packet: " ++ spaces pad ++ name ++ arrow direction ++ codes " " ++ content
        → after_word (front ++ codes "packet:") ≡ None → list_all is_name_byte name ≡ true → 0 < length name → without_return line ≡ line
        → traced_in line ≡ Some (record { name = name; direction = direction; content = content_in content }) }
{}

/// For a line that names a packet one line is shown, and for any other line nothing.
pub fn a_packet_has_one_line()
    ensures packet { (look : Look) (line : List ℕ) (traced : Traced) → traced_in line ≡ Some traced
        → (shown : List ℕ) × (shown_line look line ≡ shown ++ codes "\n") × (list_all is_written shown ≡ true) }
    ensures other { (look : Look) (line : List ℕ) → traced_in line ≡ None → shown_line look line ≡ [] }
{}

/// What Git writes of a packet's bytes is read back as these bytes without their LFs, whether its characters have a sign or not. What is
/// not clear may be read as other bytes, since a trace has one text for both: a backslash, or a byte that is written in digits, before an octal
/// digit.
pub fn texts_are_read_back()
    ensures { (signed : Bool) (bytes : List ℕ) → All (λ b. b < 256) bytes → IsClear (filter is_written bytes)
        → unescaped (written signed bytes) ≡ filter is_written bytes }
{}
