//! Laws of what a text makes, each the contract of a function without a body.

ghost use Rattle.std.specs.Prelude.{◌≡◌, ◌≤◌, ℕ, List, length};
ghost use Rattle.apd_read.specs.Reader.{Reader};
ghost use Rattle.apd_base.specs.declared.limits.TheConstants.{MAX_FILE};
ghost use Rattle.apd_clauses.specs.Clauses.{tuples_of};
ghost use Rattle.apd_dcg.specs.Rules.{AreClausesOf};
ghost use Rattle.apd_load.specs.Program.{Loads, loads, program_of};
ghost use Rattle.apd_load.specs.Programs.{IsProgramIn};
ghost use Rattle.apd_load.specs.Texts.{Makes, clause_terms};
ghost use Rattle.apd_load.specs.declared.loading.Loading.{Loading};

/// The law of one program: under the same names all readers of texts give the same program of a text, or the same first fault
/// with its line.
pub fn one_program()
    ensures { (names : List (List ℕ)) (r s : Reader names) (text : List ℕ) →
        program_of r text ≡ program_of s text }
{}

/// The law of loading. Each text makes one thing, by its tokens and by its clauses and directives, each read with the operators
/// that stand before it: a program, or a refusal for its first fault in a line. And this is what each reader of texts gives.
pub fn every_text_makes_one_program()
    ensures makes { (names : List (List ℕ)) (reader : Reader names) (text : List ℕ) →
        Makes names text (program_of reader text) }
    ensures only { (names : List (List ℕ)) (reader : Reader names) (text : List ℕ)
        (result : Loads) → Makes names text result → program_of reader text ≡ result }
{}

/// What a text makes that is short enough to be read is a program: it has few enough clauses, and each has an atom of a
/// program's own predicate as its head and only goals that may be run in its body.
pub fn what_is_loaded_is_a_program()
    ensures { (names : List (List ℕ)) (reader : Reader names) (text : List ℕ) →
        length text ≤ MAX_FILE → IsProgramIn (program_of reader text) }
{}

/// The clauses of what a text makes are those that its terms are, in order: a grammar rule is its translation, and a
/// directive is no clause.
pub fn what_is_loaded_is_made_of_terms()
    ensures { (names : List (List ℕ)) (text : List ℕ) (l : Loading)
        (made : Makes names text (loads l)) →
        AreClausesOf (clause_terms made) (tuples_of l.program) }
{}
