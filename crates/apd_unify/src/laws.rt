//! Laws of unification and of stores.

ghost use Rattle.std.specs.Prelude.{◌≡◌, ◌↔◌, ◌<◌, ◌≤◌, ℕ, List, Option, IsNone, IfSome, length, take};
ghost use Rattle.apd_term.specs.Term.{Term, apply};
ghost use Rattle.apd_term.specs.Substitution.{term_for, Unifies};
ghost use Rattle.apd_unify.specs.Unifier.{FactorsUnifiers, IsMostGeneral, BringsNoVariable, HasNoUnifier, IsAnswer, made_of};
ghost use Rattle.apd_cells.specs.First.{AreClashing, AreApart, key_of, first_symbol};
ghost use Rattle.apd_unify.specs.Textbook.{unifier_of};
ghost use Rattle.apd_cells.specs.Stored.{Stored};
ghost use Rattle.apd_cells.specs.Store.{at_mark, term_at, IsSound, Keeps};
ghost use Rattle.apd_cells.specs.Undone.{no_front, undone, HasMoreCells};
ghost use Rattle.apd_cells.specs.declared.front.Front.{Front};

/// The textbook's function gives a most general unifier of two terms that has only variables of
/// theirs, and `None` exactly where they have no unifier (Robinson 1965).
pub fn textbook_unifiers_are_most_general()
    ensures unifies { (a b : Term) → IfSome (unifier_of a b) (λ s. Unifies (term_for s) a b) }
    ensures most_general { (a b : Term) →
        IfSome (unifier_of a b) (λ s. FactorsUnifiers (term_for s) a b) }
    ensures idempotent { (a b : Term) →
        IfSome (unifier_of a b) (λ s. IsMostGeneral (term_for s) a b) }
    ensures brings_no_variable { (a b : Term) →
        IfSome (unifier_of a b) (λ s. BringsNoVariable s a b) }
    ensures none { (a b : Term) → IsNone (unifier_of a b) ↔ HasNoUnifier a b }
{}

/// Most general unifiers of the same terms, or of variants of them, make variants of a term; so
/// any of them may stand for the textbook's.
pub fn unifiers_make_variants()
    ensures same_terms { (a b t : Term) (x y : Option (List (ℕ × Term))) →
        IsAnswer a b x → IsAnswer a b y → made_of t x ≡ made_of t y }
    ensures variants { (a b t a' b' t' : Term) (s r : ℕ → Term) →
        apply s a ≡ a' → apply s b ≡ b' → apply s t ≡ t' →
        apply r a' ≡ a → apply r b' ≡ b → apply r t' ≡ t →
        (x y : Option (List (ℕ × Term))) → IsAnswer a b x → IsAnswer a' b' y →
        made_of t x ≡ made_of t' y }
{}

/// Terms that begin with different names or integers have no unifier, nor have terms whose first
/// arguments do; not even where their variables are kept apart.
pub fn different_symbols_have_no_unifier()
    ensures first { (a b : Term) →
        AreClashing (first_symbol a) (first_symbol b) → AreApart a b }
    ensures keys { (a b : Term) → AreClashing (key_of a) (key_of b) → AreApart a b }
    ensures apart { (a b : Term) → AreApart a b → HasNoUnifier a b }
{}

/// Marks nest: the store at an earlier mark is the same whether one goes back at once or by way of
/// a later mark; so what each of two calls keeps both keep.
pub fn marks_nest()
    ensures twice { (i j : ℕ) (s : Stored) → i ≤ j → j ≤ length s.trail →
        at_mark i (at_mark j s) ≡ at_mark i s }
    ensures kept { (a b c : Stored) → Keeps a b → Keeps b c → Keeps a c }
{}

/// Going back to a mark leaves the store that was there, with more cells behind it: those of the front that is kept. Where
/// there is no front it is the store at the mark.
pub fn what_is_kept_stays()
    ensures front { (kept : Front) (k : ℕ) (s : Stored) →
        take kept.cells (undone kept k s).cells ≡ take kept.cells s.cells }
    ensures more { (kept : Front) (k : ℕ) (s : Stored) → IsSound s →
        HasMoreCells (at_mark k s) (undone kept k s) }
    ensures terms { (kept : Front) (k c : ℕ) (s : Stored) → IsSound s →
        c < length (at_mark k s).cells →
        term_at (undone kept k s) c ≡ term_at (at_mark k s) c }
    ensures none { (k : ℕ) (s : Stored) → IsSound s → undone no_front k s ≡ at_mark k s }
{}
