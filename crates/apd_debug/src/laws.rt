//! Laws of diagnoses in a conversation, each the contract of a function without a body.

ghost use Rattle.std.specs.Prelude.{◌≡◌, All, List, Some, true, ℕ};
ghost use Rattle.apd_answers.specs.declared.finding.Finding.{Finding};
ghost use Rattle.apd_clauses.specs.Clauses.{IsClause};
ghost use Rattle.apd_clauses.specs.Kinds.{IsPureGoal, IsUserAtom};
ghost use Rattle.apd_debug.specs.Conversing.{Conversing};
ghost use Rattle.apd_debug.specs.Known.{KeepsNamed};
ghost use Rattle.apd_debug.specs.Laws.{Debugging, GoesAlong, LinesAreTurns, LinesMakeTheDialogue, OnlyQuitEnds};
ghost use Rattle.apd_debug.specs.NamedStates.{IsKnownGoal, IsKnownLoop, IsOwnChain, MayGoOn, loop_entry};
ghost use Rattle.apd_debug.specs.NamedTrees.{HasOwnLabels, IsKnownTree, RecordIsNamed, TreeIsNamed};
ghost use Rattle.apd_divide.specs.declared.node.Strategy.{Strategy};
ghost use Rattle.apd_divide.specs.Exits.{IsLabelled};
ghost use Rattle.apd_divide.specs.Recorded.{tree};
ghost use Rattle.apd_loop.specs.Known.{IsChain};
ghost use Rattle.apd_loop.specs.Loop.{loop, loop_start};
ghost use Rattle.apd_missing.specs.Missing.{missing};
ghost use Rattle.apd_record.specs.Recorded.{Recorded, box_at, chain, is_user_atom, point_at, query_point};
ghost use Rattle.apd_record.specs.Sound.{IsSound};
ghost use Rattle.apd_record.specs.declared.rows.BoxRow.{BoxRow};
ghost use Rattle.apd_recorded.specs.Told.{record_of};
ghost use Rattle.apd_term.specs.declared.tuple.Tuple.{Tuple};
ghost use Rattle.apd_term.specs.Named.{AllTuplesNamed, IsNamed, TupleIsNamed};
ghost use Rattle.apd_term.specs.Substitution.{IsInstance};
ghost use Rattle.apd_term.specs.Term.{Term};
ghost use Rattle.apd_text.specs.declared.entry.Entry.TheVariants.{Found};
ghost use Rattle.apd_trace.specs.Run.{query_run};
ghost use Rattle.apd_wrong.specs.Wrong.{wrong};

use apd_answers::Oracle;

/// Which states of a diagnosis are known, by the names that there are. It has no data, and nothing of it runs.
pub trait Known<D> {
    ghost use Rattle.std.specs.Prelude.{List, ℕ};
    ghost use Rattle.apd_answers.specs.Store.{Store};

    /// By how many names are known, the store and the state.
    ghost is_known: { ℕ → Store → D → Type 0 };
}

/// The calls that a diagnosis makes of an oracle, where each is a part of a conversation, are the steps of the conversation:
/// however it ends, the conversation has come there.
pub fn a_diagnosis_converses<S, D, E, K: Known<D>, O: Oracle>()
    ensures { (b : Debugging S D E) (c : Conversing O.step) →
        KeepsNamed b.diagnosis b.found K.is_known → GoesAlong b c K.is_known }
{}

/// Lines that are replies to the questions of a diagnosis make its dialogue with these replies.
pub fn lines_make_the_dialogue<S, D, E>()
    ensures { (b : Debugging S D E) → LinesMakeTheDialogue b }
{}

/// Where a question of a diagnosis waits, the lines are its turns.
pub fn lines_are_turns<S, D, E>()
    ensures { (b : Debugging S D E) → LinesAreTurns b }
{}

/// In a reply's place a line ends the session exactly where it is `quit.`.
pub fn only_quit_ends<S, D, E>()
    ensures { (b : Debugging S D E) → OnlyQuitEnds b }
{}

/// The diagnosis of a wrong answer asks about and finds what is named, and asks what may be asked, where its tree is so, in
/// whatever lines the clauses stand.
pub fn wrong_answers_are_named()
    ensures { (strategy : Strategy) (line_of : Finding → ℕ) →
        KeepsNamed (wrong strategy) (λ f. Found f (line_of f)) IsKnownTree }
{}

/// So does the diagnosis of a missing answer, where its clauses are those of a program, its goal has no variable, and the
/// replies that are kept are so too.
pub fn missing_answers_are_named()
    ensures { (P : List Tuple) (R : Recorded) (line_of : Finding → ℕ) →
        KeepsNamed (missing P R) (λ f. Found f (line_of f)) (IsKnownGoal P) }
{}

/// So does the diagnosis of a run that doesn't end, where its record is so, however many calls there are.
pub fn runs_without_end_are_named()
    ensures { (R : Recorded) (chain : List ℕ) (strategy : Strategy) (line_of : Finding → ℕ)
        (calls : ℕ) →
        KeepsNamed (loop R chain strategy) (loop_entry line_of calls) (IsKnownLoop R chain) }
{}

/// In a sound record of a program the label of an exit, and each label of its proof tree, is an atom of a program's own
/// predicate. Where the record begins with a query of pure Prolog, so is each atom of the program's own that is an instance
/// of a call, and the chain may be asked about, as far as the diagnosis of a run that doesn't end does.
pub fn records_may_be_asked_about()
    ensures label { (P : List Tuple) → All IsClause P → (R : Recorded) → IsSound P R →
        (exit : ℕ) (label : Term) → IsLabelled R exit label → IsUserAtom label }
    ensures tree { (P : List Tuple) → All IsClause P → (R : Recorded) → IsSound P R →
        (exit : ℕ) (label : Term) → IsLabelled R exit label → HasOwnLabels (tree R exit label) }
    ensures call { (P : List Tuple) → All IsClause P → (R : Recorded) → IsSound P R →
        (query : Tuple) → All IsPureGoal query.body → point_at R 0 ≡ Some (query_point query) →
        (n : ℕ) (b : BoxRow) (a : Term) → box_at R n ≡ Some b → IsInstance a b.atom →
        is_user_atom a ≡ true → IsUserAtom a }
    ensures chain { (P : List Tuple) → All IsClause P → (R : Recorded) → IsSound P R →
        (query : Tuple) → All IsPureGoal query.body → point_at R 0 ≡ Some (query_point query) →
        IsChain R (chain R) → IsOwnChain R (chain R) }
    ensures start { (P : List Tuple) → All IsClause P → (R : Recorded) → IsSound P R →
        (calls : List ℕ) → MayGoOn R calls (loop_start R calls) }
{}

/// The record of a run has no names that the program and the query don't have, and the tree of an exit none that the record
/// and the label don't have.
pub fn records_are_named()
    ensures run { (n : ℕ) (P : List Tuple) (query : Tuple) (budget answers : ℕ) →
        AllTuplesNamed n P → TupleIsNamed n query →
        RecordIsNamed n (record_of (query_run P query budget answers).passed) }
    ensures tree { (n : ℕ) (R : Recorded) (exit : ℕ) (label : Term) →
        RecordIsNamed n R → IsNamed n label → TreeIsNamed n (tree R exit label) }
{}
