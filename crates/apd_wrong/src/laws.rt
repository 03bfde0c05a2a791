//! Laws of the diagnosis of a wrong answer.

ghost use Rattle.std.specs.Prelude.{◌≡◌, ℕ, ◌≤◌, List, Some};
ghost use Rattle.std.specs.List.{AllByRecursion};
ghost use Rattle.apd_term.specs.declared.tuple.Tuple.{Tuple};
ghost use Rattle.apd_record.specs.Recorded.{Recorded};
ghost use Rattle.apd_answers.specs.declared.question.Reply.{Reply};
ghost use Rattle.apd_answers.specs.declared.finding.Finding.{Finding};
ghost use Rattle.apd_answers.specs.declared.question.Question.TheVariants as asking;
ghost use Rattle.apd_answers.specs.declared.question.Reply.TheVariants.{No};
ghost use Rattle.apd_answers.specs.Dialogue.{Exchange, dialogue, ends, next_turn};
ghost use Rattle.apd_answers.specs.Falling.{Falls};
ghost use Rattle.apd_answers.specs.Findings.{IsByReplies};
ghost use Rattle.apd_divide.specs.declared.node.Strategy.{Strategy};
ghost use Rattle.apd_divide.specs.Tree.{Tree};
ghost use Rattle.apd_wrong.specs.Wrong.{wrong};
ghost use Rattle.apd_wrong.specs.Support.{IsProofTree, IsWrongTree};
ghost use Rattle.apd_divide.specs.Exits.{IsUserExit};
ghost use Rattle.apd_divide.specs.Recorded.{tree};
ghost use Rattle.apd_record.specs.Sound.{IsSound};
ghost use Rattle.apd_answers.specs.Store.{Store, SaysNo, with_pair};
ghost use Rattle.apd_answers.specs.Questions.{FitsAsked};
ghost use Rattle.apd_term.specs.Term.{Term};
ghost use Rattle.apd_term.specs.Substitution.{IsInstance};
ghost use Rattle.apd_wrong.specs.Next.{ComesNext};
ghost use Rattle.apd_wrong.specs.Part.{IsPartOf};

/// Each turn of the diagnosis leaves fewer suspects; so it comes to a question or to its end.
pub fn suspects_fall()
    ensures { (strategy : Strategy) → Falls (wrong strategy) }
{}

/// The tree of an exit of a sound record, with a label that is an instance of its head, is a proof tree of the program; and
/// where the store says that the label isn't true, as it does of a symptom once it is told, it is one of a wrong answer.
pub fn a_recorded_tree_proves()
    ensures proves { (P : List Tuple) (R : Recorded) (e : ℕ) (l : Term) → IsSound P R →
        (x : IsUserExit R e) → IsInstance l x.point.tuple.head → IsProofTree P (tree R e l) }
    ensures starts { (P : List Tuple) (R : Recorded) (store : Store) (e : ℕ) (l : Term) →
        IsSound P R → (x : IsUserExit R e) → IsInstance l x.point.tuple.head → SaysNo store l →
        IsWrongTree P R store (tree R e l) }
    ensures told { (P : List Tuple) (R : Recorded) (store : Store) (e : ℕ) (l : Term) →
        IsSound P R → (x : IsUserExit R e) → IsInstance l x.point.tuple.head →
        IsWrongTree P R (with_pair store (asking.True l) No) (tree R e l) }
{}

/// What comes next in a tree of a wrong answer is a question that got no reply yet, and whatever the reply, it leaves such a tree
/// with fewer suspects; by divide and query, where of no label of the whole tree it is kept that it isn't known, at most
/// (2b - 1) / (2b) of them. Or it is a finding by the replies.
pub fn what_comes_next()
    ensures { (P : List Tuple) (R : Recorded) (strategy : Strategy) (store : Store)
        (whole x : Tree) →
        IsWrongTree P R store x → IsPartOf whole x →
        ComesNext P R strategy store whole (next_turn (wrong strategy) store x) }
{}

/// What a dialogue about a wrong answer ends in is found by its replies, where each fits what was asked.
pub fn a_dialogue_finds_by_replies()
    ensures { (P : List Tuple) (R : Recorded) (strategy : Strategy) (replies : List Reply)
        (store : Store) (x : Tree) (f : Finding) →
        IsWrongTree P R store x →
        AllByRecursion (λ (e : Exchange). FitsAsked e.asked e.reply) (dialogue (wrong strategy) replies store x).exchanges →
        (dialogue (wrong strategy) replies store x).turn ≡ ends f →
        IsByReplies P R (dialogue (wrong strategy) replies store x).store f }
{}
