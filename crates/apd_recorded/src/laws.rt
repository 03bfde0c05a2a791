//! Laws of the record of a run. The clauses of `P` have atoms as heads and in their bodies, and so has the query.

ghost use Rattle.std.specs.Prelude.{◌≡◌, ◌<◌, ◌⊎◌, ℕ, List, [], ◌∷◌, ◌++◌, Option, Some, None, true, false, length, map, slice_get, All};
ghost use Rattle.apd_term.specs.Term.{Term, IsGround};
ghost use Rattle.apd_term.specs.Substitution.{IsInstance};
ghost use Rattle.apd_term.specs.Tuple.{IsTupleInstance};
ghost use Rattle.apd_term.specs.declared.tuple.Tuple.{Tuple};
ghost use Rattle.apd_clauses.specs.Clauses.{IsAtom, IsClause, IsProgram, MayRun, tuples_of};
ghost use Rattle.apd_clauses.specs.declared.clause.Clause.{Clause};
ghost use Rattle.apd_ports.specs.declared.point.Point.{Point};
ghost use Rattle.apd_record.specs.Recorded.{Recorded, box_at, point_at, IsExit, empty, query_point, chain, child, exits, first_point, follow};
ghost use Rattle.apd_record.specs.declared.rows.BoxRow.{BoxRow};
ghost use Rattle.apd_record.specs.Sound.{IsSound};
ghost use Rattle.apd_record.specs.Full.{HasExit, IsFull};
ghost use Rattle.apd_record.specs.Chain.{EachOwnsNext};
ghost use Rattle.apd_record.specs.ProofTrees.{ExitsAreProved, HasProofTree};
ghost use Rattle.apd_trace.specs.Frames.{apply_frames, entering, goal_of, handed, next_goal};
ghost use Rattle.apd_recorded.specs.Joint.{IsJoint, HeadFits, AllFit};
ghost use Rattle.apd_trace.specs.BuiltIn.{solution, solved};
ghost use Rattle.apd_trace.specs.Trace.{trace};
ghost use Rattle.apd_trace.specs.Run.{before_event, query_run};
ghost use Rattle.apd_trace.specs.declared.frame.Frame.{Frame};
ghost use Rattle.apd_trace.specs.declared.frame.Called.{Called};
ghost use Rattle.apd_recorded.specs.Told.{told, record_of, AnswersAreProved, May, MayTake};
ghost use Rattle.apd_trace.specs.declared.item.Item.{Item};
ghost use Rattle.apd_trace.specs.declared.item.Item.TheVariants.{Answer, Made};
ghost use Rattle.apd_recorded.specs.Recording.{told_held, IsRecording};
ghost use Rattle.apd_recorded.specs.Example.{recorded};
ghost use Rattle.apd_recorded.specs.Exited.{AreExited, exited};
ghost use Rattle.apd_recorded.specs.Within.{MayTakeTo};

/// A record may be told the items of each trace in turn, up to the kth port of the trace that goes k ports deep, and so all
/// that a run passes.
pub fn runs_may_be_recorded()
    ensures trace { (P : List Tuple) → All IsClause P → (query : Tuple) → All IsAtom query.body →
        (k : ℕ) → MayTakeTo P k empty (trace P query k) }
    ensures run { (P : List Tuple) → All IsClause P → (query : Tuple) → All IsAtom query.body →
        (budget answers : ℕ) → MayTake P empty (query_run P query budget answers).passed }
{}

/// The record of a run is sound for the program, and full at each complete box.
pub fn the_record_of_a_run_is_sound_and_full()
    ensures sound { (P : List Tuple) → All IsClause P → (query : Tuple) → All IsAtom query.body →
        (budget answers : ℕ) → IsSound P (record_of (query_run P query budget answers).passed) }
    ensures full { (P : List Tuple) → All IsClause P → (query : Tuple) → All IsAtom query.body →
        (budget answers : ℕ) → IsFull P (record_of (query_run P query budget answers).passed) }
{}

/// The record of a run begins with the query's point, where a port may be passed. In the record each box of the chain owns the point
/// from which the next one was called, and the query that of the first.
pub fn the_record_of_a_run_is_the_querys_and_chained()
    ensures query { (P : List Tuple) (query : Tuple) (budget answers : ℕ) → 0 < budget →
        point_at (record_of (query_run P query budget answers).passed) 0 ≡
        Some (query_point query) }
    ensures chain { (P : List Tuple) → All IsClause P → (query : Tuple) → All IsAtom query.body →
        (budget answers : ℕ) → EachOwnsNext (record_of (query_run P query budget answers).passed) 0
        (chain (record_of (query_run P query budget answers).passed)) }
{}

/// In the record of a run the head of each exit of a box of the program's has a proof tree, and each goal of the body of an
/// exit is proved.
pub fn exits_of_a_run_have_proof_trees()
    ensures { (P : List Tuple) → All IsClause P → (query : Tuple) → All IsAtom query.body →
        (budget answers : ℕ) →
        ExitsAreProved P (record_of (query_run P query budget answers).passed) }
{}

/// At each answer of a run the newest point is the query's instance with the answer as its head, and each goal of it is proved.
pub fn answers_of_a_run_are_proved()
    ensures { (P : List Tuple) → All IsClause P → (query : Tuple) → All IsAtom query.body →
        (budget answers : ℕ) →
        AnswersAreProved P (query_run P query budget answers).passed }
{}

/// An atom without variables that is an instance of the call atom of a complete box of a run, and of the head of none of its
/// exits, has no proof tree.
pub fn what_a_run_misses_has_no_proof_tree()
    ensures { (P : List Tuple) → All IsClause P → (query : Tuple) → All IsAtom query.body →
        (budget answers n : ℕ) (b : BoxRow) (a : Term) →
        box_at (record_of (query_run P query budget answers).passed) n ≡ Some b →
        b.complete ≡ true → IsGround a → IsInstance a b.atom →
        ¬ HasExit (record_of (query_run P query budget answers).passed) n a → ¬ HasProofTree P a }
{}

/// Lifting: each instance of a clause whose head is an instance of the goal is an instance of what is entered, so something is.
pub fn clauses_are_lifted()
    ensures something { (F : List Frame) (g : Called) (r : Tuple) (c m : ℕ) (a : Term)
        (t : Tuple) → next_goal F ≡ Some a → IsTupleInstance t r → IsInstance t.head a →
        ¬ (entering F g r c m ≡ None) }
    ensures instance { (F G : List Frame) (f : Frame) (g : Called) (r : Tuple) (c m : ℕ) (a : Term)
        (t : Tuple) → next_goal F ≡ Some a → IsTupleInstance t r → IsInstance t.head a →
        entering F g r c m ≡ Some (f ∷ G) → IsTupleInstance t f.tuple }
{}

/// The frames stay as general as their points allow: where a clause is entered, where a built-in goal succeeds, and where an
/// exit is handed on.
pub fn frames_stay_joint()
    ensures entered { (F H : List Frame) (g : Called) (r : Tuple) (c m : ℕ) (T : Tuple)
        (Ts : List Tuple) → entering F g r c m ≡ Some H → IsJoint F Ts → IsTupleInstance T r →
        IsJoint H (T ∷ Ts) }
    ensures solved { (F H : List Frame) (f : Frame) (g : Called) (m : ℕ) (T : Tuple)
        (Ts : List Tuple) → solution F g m ≡ solved (f ∷ H) → IsJoint F Ts →
        IsTupleInstance T f.tuple → IsJoint (f ∷ H) (T ∷ Ts) }
    ensures handed { (e f : Frame) (G : List Frame) (E T : Tuple) (Us : List Tuple) →
        IsJoint (e ∷ f ∷ G) (E ∷ T ∷ Us) → (m : ℕ) (T' : Tuple) → goal_of f ≡ Some e.tuple.head →
        IsTupleInstance e.tuple E → IsTupleInstance f.tuple T → IsTupleInstance T' f.tuple →
        IsJoint (handed f m ∷ G) (T' ∷ Us) }
{}

/// Lifting of a hand-over: each instance of the point whose next goal is an instance of the exit's head is an instance of
/// the frame as it is handed on.
pub fn exits_are_lifted()
    ensures { (e f : Frame) (G : List Frame) (E T : Tuple) (Us : List Tuple) →
        IsJoint (e ∷ f ∷ G) (E ∷ T ∷ Us) → (t : Tuple) (a : Term) → HeadFits T G Us → AllFit G Us →
        IsTupleInstance t T → slice_get t.body f.done ≡ Some a → IsInstance a E.head →
        IsTupleInstance t f.tuple }
{}

/// How a record goes through a run: at first it is empty; a point that the search gives is held until an event is told after
/// it; each may be told, and the record stays sound, full and chained; at the end it is the run's. What it asks of clauses and
/// of the query's goals holds of every program and of each query that may be run.
pub fn records_go_through_runs()
    ensures starts { (P : List Tuple) → All IsClause P → (query : Tuple) → All IsAtom query.body →
        (budget answers : ℕ) → IsRecording P (query_run P query budget answers).passed empty None
        (query_run P query budget answers).passed }
    ensures holds { (P : List Tuple) (all : List Item) (R : Recorded) (p : Point)
        (left : List Item) → IsRecording P all R None (before_event (Made p) left) →
        IsRecording P all R (Some p) left }
    ensures held { (P : List Tuple) (all : List Item) (R : Recorded) (x : Item) (left : List Item)
        (p : Point) → IsRecording P all R (Some p) (x ∷ left) → May P R (Made p) }
    ensures event { (P : List Tuple) (all : List Item) (R : Recorded) (x : Item) (left : List Item)
        (held : Option Point) → IsRecording P all R held (x ∷ left) → May P (told_held R held) x }
    ensures tells { (P : List Tuple) (all : List Item) (R : Recorded) (x : Item) (left : List Item)
        (held : Option Point) → IsRecording P all R held (x ∷ left) →
        IsRecording P all (told (told_held R held) x) None left }
    ensures ends { (P : List Tuple) (all : List Item) (R : Recorded) (held : Option Point) →
        IsRecording P all R held [] → record_of all ≡ R }
    ensures clauses { (cs : List Clause) → IsProgram cs → All IsClause (tuples_of cs) }
    ensures goals { (query : Tuple) → MayRun query → All IsAtom query.body }
{}

/// In a run each point that is an exit is followed at once by the Exit of its box, and each Exit follows such a point; so the
/// Kth exit of a box in the record is the newest point at the box's Kth Exit.
pub fn exits_are_those_that_are_passed()
    ensures followed { (P : List Tuple) (query : Tuple) (budget answers : ℕ) →
        AreExited None (query_run P query budget answers).passed }
    ensures exits { (P : List Tuple) (query : Tuple) (budget answers n : ℕ) → 0 < n →
        exits (record_of (query_run P query budget answers).passed) n ≡
        exited n empty (query_run P query budget answers).passed }
{}

/// The record of a small run (`specs/Example`), by the hand of its writer: nine points, four boxes of which two are built in.
pub fn a_small_run_is_recorded_so()
    ensures points { length (recorded 100).points ≡ 9 }
    ensures users { map (λ (b : BoxRow). b.is_user) (recorded 100).boxes ≡
        true ∷ true ∷ false ∷ false ∷ [] }
    ensures complete { map (λ (b : BoxRow). b.complete) (recorded 100).boxes ≡
        true ∷ true ∷ true ∷ true ∷ [] }
    ensures exits { map (exits (recorded 100)) (1 ∷ 2 ∷ 3 ∷ 4 ∷ []) ≡
        (7 ∷ []) ∷ (2 ∷ 4 ∷ []) ∷ [] ∷ (6 ∷ []) ∷ [] }
    ensures children { map (child (recorded 100)) (0 ∷ 1 ∷ 3 ∷ 5 ∷ 7 ∷ []) ≡
        Some 1 ∷ Some 2 ∷ Some 3 ∷ Some 4 ∷ None ∷ [] }
    ensures firsts { map (first_point (recorded 100) 2) (1 ∷ 2 ∷ 3 ∷ []) ≡
        Some 2 ∷ Some 4 ∷ None ∷ [] }
    ensures follows { follow (recorded 100) 1 2 ∷ follow (recorded 100) 1 4 ∷ follow
        (recorded 100) 5 6 ∷ follow (recorded 100) 0 7 ∷ [] ≡
        Some 3 ∷ Some 5 ∷ Some 7 ∷ Some 8 ∷ [] }
    ensures chains { map (λ budget. chain (recorded budget)) (1 ∷ 2 ∷ 3 ∷ 4 ∷ 6 ∷ 100 ∷ []) ≡
        (1 ∷ []) ∷ (1 ∷ 2 ∷ []) ∷ (1 ∷ []) ∷ (1 ∷ []) ∷ (1 ∷ 2 ∷ []) ∷ [] ∷ [] }
{}
