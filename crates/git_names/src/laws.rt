//! Laws of names: each function does nothing, and its contract is the law.
ghost use Rattle.std.specs.Prelude.{◌≡◌, ℕ, ◌<◌, ◌⊎◌, List, [], ◌++◌, codes, length, slice_index};
ghost use Rattle.std.specs.List.{AllPass};
ghost use Rattle.git_names.specs.Digits.{IsHexDigit, is_lower_digit};
ghost use Rattle.git_names.specs.ObjectName.{IsObjectName, IsOid, ObjectName, hex_of};
ghost use Rattle.git_names.specs.RefName.{IsRefName, Lacks};
ghost use Rattle.git_names.specs.declared.object_format.Format.{Format as ObjectFormat};

/// The written form of an object name reads back as that name.
pub fn written_name_reads_back()
    ensures { (id : ObjectName) → IsOid id → IsObjectName id.format (hex_of id) id }
{}

/// A text is at most one object name of a format.
pub fn text_is_one_object_name()
    ensures { (format : ObjectFormat) (text : List ℕ) (a b : ObjectName)
        → IsObjectName format text a → IsObjectName format text b → a ≡ b }
{}

/// Only one text of an object name is in lower case: its written form.
pub fn object_name_has_one_written_form()
    ensures lower { (id : ObjectName) → IsOid id → AllPass is_lower_digit (hex_of id) }
    ensures one { (format : ObjectFormat) (text : List ℕ) (id : ObjectName)
        → IsObjectName format text id → AllPass is_lower_digit text → text ≡ hex_of id }
{}

/// Object names with the same written form are equal, and so are their formats.
pub fn written_forms_differ_as_names_do()
    ensures { (a b : ObjectName) → IsOid a → IsOid b → hex_of a ≡ hex_of b → a ≡ b }
{}

/// No object name is the beginning of a longer one of its format.
pub fn no_object_name_begins_another()
    ensures { (format : ObjectFormat) (text more : List ℕ) (a b : ObjectName)
        → IsObjectName format text a → IsObjectName format (text ++ more) b → more ≡ [] }
{}

/// An object name consists of digits: no byte of it ends a word or a line.
pub fn object_name_is_digits()
    ensures { (format : ObjectFormat) (text : List ℕ) (id : ObjectName) → IsObjectName format text id
        → (k : ℕ) → k < length text → IsHexDigit (slice_index text k) }
{}

/// Each object name that a text spells is a value of [`Oid`](crate::Oid).
pub fn object_name_is_an_oid()
    ensures { (format : ObjectFormat) (text : List ℕ) (id : ObjectName) → IsObjectName format text id → IsOid id }
{}

/// A reference name is `HEAD`, or `refs/` with more after it.
pub fn ref_name_begins()
    ensures { (text : List ℕ) → IsRefName text
        → (text ≡ codes "HEAD") ⊎ ((rest : List ℕ) × (text ≡ codes "refs/" ++ rest) × (0 < length rest)) }
{}

/// A reference name has no byte that ends a line or a word: no NUL, line feed or space.
pub fn ref_name_ends_no_line_or_word()
    ensures nul { (text : List ℕ) → IsRefName text → Lacks text 0 }
    ensures line_feed { (text : List ℕ) → IsRefName text → Lacks text 10 }
    ensures space { (text : List ℕ) → IsRefName text → Lacks text 32 }
{}
