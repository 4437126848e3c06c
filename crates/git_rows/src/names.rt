//! Names: object formats, object names and reference names.

ghost use Rattle.std.specs.Prelude.{◌≡◌, ◌≢◌, ◌++◌, ◌∷◌, [], codes};
ghost use Rattle.git_names.specs.ObjectFormat.{NamesNoFormat, digits_of, name_of, width_of};
ghost use Rattle.git_names.specs.ObjectName.{IsNoObjectName, IsObjectName, IsOid, hex_of};
ghost use Rattle.git_names.specs.RefName.{IsRefName};
ghost use Rattle.git_names.specs.declared.object_format.Format.TheVariants.{Sha1, Sha256};
ghost use Rattle.git_rows.specs.Worked.{all_a, all_upper_a, name_a, name_unpadded};

/// The two object formats, and a name of none.
pub fn formats_by_their_names()
    ensures names { (name_of Sha1 ≡ codes "sha1") × (name_of Sha256 ≡ codes "sha256") }
    ensures digits { (digits_of Sha1 ≡ 40) × (digits_of Sha256 ≡ 64) }
    ensures bytes { (width_of Sha1 ≡ 20) × (width_of Sha256 ≡ 32) }
    ensures no_other { NamesNoFormat (codes "sha512") }
    ensures not_of_sha1 { ¬ NamesNoFormat (codes "sha1") }
{}

/// Forty digits in either case, and texts that are too short, too long or have another letter.
pub fn object_names_of_forty_digits()
    ensures lower { IsObjectName Sha1 all_a name_a }
    ensures upper { IsObjectName Sha1 all_upper_a name_a }
    ensures written_in_lower_case { hex_of name_a ≡ all_a }
    ensures value { IsOid name_a }
    ensures no_fewer_digits { IsNoObjectName Sha1 (codes "aaaaaaaaaaaaaaaaaaaaaaaaaaaaaaaaaaaaaaa") }
    ensures no_more_digits { IsNoObjectName Sha1 (all_a ++ codes "a") }
    ensures no_other_letter { IsNoObjectName Sha1 (codes "aaaaaaaaaaaaaaaaaaaaaaaaaaaaaaaaaaaaaaag") }
    ensures none_of_the_other_format { IsNoObjectName Sha256 all_a }
    ensures not_refused { ¬ IsNoObjectName Sha1 all_a }
    ensures not_of_another_text { ¬ IsObjectName Sha1 (codes "aaaaaaaaaaaaaaaaaaaaaaaaaaaaaaaaaaaaaaab") name_a }
    ensures not_without_zeros_after_it { ¬ IsObjectName Sha1 all_a name_unpadded }
    ensures no_value_without_them { ¬ IsOid name_unpadded }
{}

/// Reference names at the edges of Git's rules.
pub fn reference_names_at_the_edges()
    ensures head { IsRefName (codes "HEAD") }
    ensures at_sign { IsRefName (codes "refs/heads/@") }
    ensures dash { IsRefName (codes "refs/heads/-x") }
    ensures longer_than_lock { IsRefName (codes "refs/a.lockb") }
    ensures braces { IsRefName (codes "refs/{a}") }
    ensures high_byte { IsRefName (codes "refs/" ++ 255 ∷ []) }
    ensures least_bytes { IsRefName (codes "refs/!") }
{}

/// Texts that break one rule of reference names each.
pub fn texts_that_are_no_reference_names()
    ensures nothing { ¬ IsRefName [] }
    ensures no_refs { ¬ IsRefName (codes "main") }
    ensures below_head { ¬ IsRefName (codes "HEAD/x") }
    ensures refs_alone { ¬ IsRefName (codes "refs/") }
    ensures empty_component { ¬ IsRefName (codes "refs//x") }
    ensures component_from_dot { ¬ IsRefName (codes "refs/.x") }
    ensures component_to_lock { ¬ IsRefName (codes "refs/a.lock/b") }
    ensures two_dots { ¬ IsRefName (codes "refs/a..b") }
    ensures at_brace { ¬ IsRefName (codes "refs/a@{b") }
    ensures slash_at_end { ¬ IsRefName (codes "refs/x/") }
    ensures dot_at_end { ¬ IsRefName (codes "refs/x.") }
    ensures lock_at_end { ¬ IsRefName (codes "refs/a.lock") }
    ensures control { ¬ IsRefName (codes "refs/a\n") }
    ensures space { ¬ IsRefName (codes "refs/a b") }
    ensures asterisk { ¬ IsRefName (codes "refs/a*b") }
    ensures colon { ¬ IsRefName (codes "refs/a:b") }
    ensures question_mark { ¬ IsRefName (codes "refs/a?b") }
    ensures open_bracket { ¬ IsRefName (codes "refs/a[b") }
    ensures backslash { ¬ IsRefName (codes "refs/a\\b") }
    ensures caret { ¬ IsRefName (codes "refs/a^b") }
    ensures tilde { ¬ IsRefName (codes "refs/a~b") }
    ensures delete { ¬ IsRefName (codes "refs/a" ++ 127 ∷ []) }
{}
