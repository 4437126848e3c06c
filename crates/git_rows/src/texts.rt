//! Texts: of repositories and of scripts.

ghost use Rattle.std.specs.Prelude.{◌++◌, ◌∷◌, [], codes, false, true};
ghost use Rattle.git_msg.specs.declared.Boundary.TheVariants.{Shallow, Unshallow};
ghost use Rattle.git_names.specs.declared.object_format.Format.TheVariants.{Sha1};
ghost use Rattle.git_repository.specs.Packs.{no_packs};
ghost use Rattle.git_repository.specs.RepositoryLines.{HasContent, HasNoContent, boundary, object, ready, reference, unborn};
ghost use Rattle.git_repository.specs.RepositoryText.{IsFirstBad, IsRepositoryText, MayStand};
ghost use Rattle.git2show_lib.specs.Scripts.{HasBadScriptLine, IsScript};
ghost use Rattle.git_repository.specs.RepositoryLines.{lines_of};
ghost use Rattle.git_rows.specs.Worked.{all_a, name_a, name_b, offer_all};
ghost use Rattle.git_rows.specs.WorkedTexts.{bare_entry, kept_refs, lists_of_size, repository_text};

/// The text of a repository with a line of each kind.
pub fn repository_of_a_few_lines()
    ensures read { IsRepositoryText repository_text no_packs (lists_of_size 12) }
    ensures unborn_head { HasContent Sha1 (codes "ref unborn HEAD symref-target:refs/x") (unborn (codes "refs/x")) }
    ensures no_longer_shallow { HasContent Sha1 (codes "unshallow " ++ all_a) (boundary (Unshallow name_a)) }
    ensures not_of_another_size { ¬ IsRepositoryText repository_text no_packs (lists_of_size 21) }
    ensures not_shallow { ¬ HasContent Sha1 (codes "unshallow " ++ all_a) (boundary (Shallow name_a)) }
    ensures not_ready_at_once { ¬ HasContent Sha1 (codes "ready 0") (ready 0) }
{}

/// Texts with a refused line, each with the number of the first one.
pub fn repository_lines_refused()
    ensures no_format { IsFirstBad [] 1 }
    ensures no_word { IsFirstBad (codes "format sha1\nx\n") 2 }
    ensures nothing_stated { HasNoContent Sha1 (codes "x") }
    ensures not_the_format { ¬ IsFirstBad (codes "format sha1\nx\n") 1 }
    ensures not_in_a_whole_text { ¬ IsFirstBad repository_text 2 }
    ensures names_that_fall { ¬ MayStand (reference (bare_entry (codes "refs/x")) ∷ reference (bare_entry (codes "HEAD")) ∷ []) }
    ensures one_name_twice { ¬ MayStand (reference (bare_entry (codes "HEAD")) ∷ unborn (codes "refs/x") ∷ []) }
    ensures objects_that_fall { ¬ MayStand (object name_b 1 ∷ object name_a 1 ∷ []) }
    ensures two_counts { ¬ MayStand (ready 1 ∷ ready 1 ∷ []) }
{}

/// A script with one request.
pub fn requests_of_a_script()
    ensures read { IsScript offer_all 7 (codes "ls-refs\nsymrefs\n\n") (kept_refs 7 true 7 ∷ []) }
    ensures not_without_its_flag { ¬ IsScript offer_all 7 (codes "ls-refs\nsymrefs\n\n") (kept_refs 7 false 7 ∷ []) }
    ensures not_of_fewer_bytes { ¬ IsScript offer_all 7 (codes "ls-refs\nsymrefs\n\n") (kept_refs 7 true 0 ∷ []) }
    ensures no_request { ¬ IsScript offer_all 7 (codes "ls-refs\nsymrefs\n\n") [] }
{}

/// Lines of scripts that are refused.
pub fn script_lines_refused()
    ensures of_another_command { HasBadScriptLine offer_all 7 (lines_of (codes "fetch\nsymrefs\n")) 2 }
    ensures not_its_command { ¬ HasBadScriptLine offer_all 7 (lines_of (codes "fetch\nsymrefs\n")) 1 }
    ensures not_in_a_script { ¬ HasBadScriptLine offer_all 7 (lines_of (codes "ls-refs\nsymrefs\n\n")) 2 }
{}
