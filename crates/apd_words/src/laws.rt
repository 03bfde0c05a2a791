//! Laws of what the words ask for, each the contract of a function without a body.

ghost use Rattle.std.specs.Prelude.{◌≡◌, ℕ, List, Some};
ghost use Rattle.apd_words.specs.Words.{AreLimits, Options, StandsAlone, options_of};

/// Where the words ask for a demonstration, its tree has 1 to 10,000 nodes, and there is no oracle file and no reference program; and
/// there is no reference program where they ask for the check of a log.
pub fn a_tree_stands_alone()
    ensures { (words : List (List ℕ)) (options : Options) →
        options_of words ≡ Some options →
        StandsAlone options.subject options.oracle options.reference }
{}

/// The limits that the words ask for are from 1 to 1,000,000.
pub fn limits_keep_their_rules()
    ensures { (words : List (List ℕ)) (options : Options) →
        options_of words ≡ Some options → AreLimits options.budget options.answers }
{}
