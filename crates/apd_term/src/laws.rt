//! Laws of names, of matching and of canonical forms.

ghost use Rattle.std.specs.Prelude.{◌≡◌, ◌↔◌, IsTrue, ℕ, List, map};
ghost use Rattle.apd_term.specs.Term.{Term, apply, Occurs, variable};
ghost use Rattle.apd_term.specs.Substitution.{IsInstance, IsMatch, term_for};
ghost use Rattle.apd_term.specs.Matching.{same_term, matching, is_instance};
ghost use Rattle.apd_term.specs.Canonical.{canonical, AreVariants};
ghost use Rattle.apd_term.specs.Tuple.{IsTupleInstance, canonical_tuple, AreTupleVariants};
ghost use Rattle.apd_term.specs.Names.{text_of_name, HasDistinctTexts};
ghost use Rattle.apd_term.specs.StandardNames.{standard_names};
ghost use Rattle.apd_term.specs.StandardIds.{standard_ids};
ghost use Rattle.apd_term.specs.declared.tuple.Tuple.{Tuple};

/// Each constant of [`standard`](crate::standard) is the id of its text, and of no other.
pub fn standard_ids_have_their_texts()
    ensures texts { map (text_of_name standard_names) standard_ids ≡ standard_names }
    ensures distinct { HasDistinctTexts standard_names }
{}

/// Terms, and tuples, have one canonical form exactly where they are instances of each other; and each has the
/// canonical form that its own canonical form has.
pub fn variants_are_instances_of_each_other()
    ensures terms { (a b : Term) → AreVariants a b ↔ (IsInstance a b × IsInstance b a) }
    ensures tuples { (a b : Tuple) → AreTupleVariants a b ↔
        (IsTupleInstance a b × IsTupleInstance b a) }
    ensures of_a_term { (t : Term) → AreVariants (canonical t) t }
    ensures of_a_tuple { (t : Tuple) → AreTupleVariants (canonical_tuple t) t }
{}

/// What is read off two terms makes the general one into the special one, if any substitution does;
/// other variables stay.
pub fn matching_matches()
    ensures makes { (special general : Term) → IsInstance special general →
        apply (matching general special) general ≡ special }
    ensures stays { (special general : Term) (v : ℕ) → ¬ Occurs v general →
        matching general special v ≡ variable v }
    ensures test { (special general : Term) →
        IsTrue (is_instance special general) ↔ IsInstance special general }
    ensures only { (special general : Term) (s : List (ℕ × Term)) → IsMatch special general s →
        (v : ℕ) → term_for s v ≡ matching general special v }
{}

/// The test of equal terms tells whether they are equal.
pub fn same_terms_are_equal()
    ensures { (a b : Term) → IsTrue (same_term a b) ↔ (a ≡ b) }
{}
