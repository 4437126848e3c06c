//! What follows from the definitions of a script's text alone.

ghost use Rattle.std.specs.Prelude.{◌≡◌, ℕ, List, All};
ghost use Rattle.git_msg.specs.declared.offers.Offer.{Offer};
ghost use Rattle.git_msg.specs.Asked.{Asked, HasValues};
ghost use Rattle.git_msg.specs.Kept.{Kept};
ghost use Rattle.git_repository.specs.RepositoryLines.{lines_of};
ghost use Rattle.git2show_lib.specs.Scripts.{HasBadScriptLine, IsScript};

/// A text is one script at most.
pub fn one_script()
    ensures { (offer : Offer) (limit : ℕ) (text : List ℕ) (requests other : List (Kept Asked))
        → IsScript offer limit text requests → IsScript offer limit text other → requests ≡ other }
{}

/// A text with a bad line is no script.
pub fn script_or_bad()
    ensures { (offer : Offer) (limit : ℕ) (text : List ℕ) (requests : List (Kept Asked)) (number : ℕ) → IsScript offer limit text requests
        → HasBadScriptLine offer limit (lines_of text) number → ⊥ }
{}

/// A text has one first bad line at most.
pub fn one_bad_script_line()
    ensures { (offer : Offer) (limit : ℕ) (text : List ℕ) (number other : ℕ) → HasBadScriptLine offer limit (lines_of text) number
        → HasBadScriptLine offer limit (lines_of text) other → number ≡ other }
{}

/// Each request of a script has values that are allowed in a request of its command and format, as what is played has to.
pub fn script_requests_have_values()
    ensures { (offer : Offer) (limit : ℕ) (text : List ℕ) (requests : List (Kept Asked)) → IsScript offer limit text requests
        → All (λ request. HasValues request.format request.asked) requests }
{}
