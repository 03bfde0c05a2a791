//! The laws of grammars.

ghost use Rattle.std.specs.Prelude.{◌↔◌, ℕ, List, [], ◌∷◌};
ghost use Rattle.apd_term.specs.Term.{Term, IsGround};
ghost use Rattle.apd_term.specs.declared.tuple.Tuple.{Tuple};
ghost use Rattle.apd_clauses.specs.Clauses.{tuples_of};
ghost use Rattle.apd_record.specs.ProofTrees.{HasGroundProofTree};
ghost use Rattle.apd_dcg.specs.Rules.{with_states, AreClausesOf};
ghost use Rattle.apd_load.specs.Program.{loads};
ghost use Rattle.apd_load.specs.Texts.{Makes, clause_terms};
ghost use Rattle.apd_load.specs.declared.Loaded.{Loaded};
ghost use Rattle.apd_grammar.specs.Derivations.{IsNonterminal, HasOwnPredicates, IsDerived, Derives};
ghost use Rattle.apd_grammar.specs.Example as example;

/// In the program that terms make, where each clause with a predicate of the grammar is a rule's: the atom of a
/// nonterminal with two states has a proof tree without variables exactly where the first state is a list of terms that
/// the nonterminal derives, followed by the second state.
pub fn rules_prove_what_they_derive()
    ensures { (sources : List Term) (P : List Tuple) → AreClausesOf sources P →
        HasOwnPredicates sources P → (n s t : Term) → IsNonterminal sources n →
        IsGround n → IsGround s → IsGround t →
        HasGroundProofTree P (with_states n s t) ↔ IsDerived sources P n s t }
{}

/// In the program of a text that is loaded, where each clause with a predicate of the grammar is a rule's: the atom of a
/// nonterminal with two states, all without variables, has a proof tree without variables exactly where the rules derive it.
pub fn a_text_proves_what_its_rules_derive()
    ensures { (names : List (List ℕ)) (text : List ℕ) (l : Loaded)
        (made : Makes names text (loads (record { program = l.program; ops = l.ops; passed = l.passed }))) →
        let sources = clause_terms made in let P = tuples_of l.program in
        HasOwnPredicates sources P → (n s t : Term) → IsNonterminal sources n →
        IsGround n → IsGround s → IsGround t →
        HasGroundProofTree P (with_states n s t) ↔ IsDerived sources P n s t }
{}

/// A small grammar, worked by hand: its rules are these clauses, and `s` derives `b`, `c`.
pub fn a_small_grammar_derives_so()
    ensures clauses { AreClausesOf example.rules example.clauses }
    ensures derives { Derives example.rules example.clauses example.s (example.b ∷ example.c ∷ []) }
{}
