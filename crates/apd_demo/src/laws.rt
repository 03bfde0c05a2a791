//! A law of what is replied about a tree.

ghost use Rattle.std.specs.Prelude.{◌≡◌, Some};
ghost use Rattle.apd_answers.specs.Questions.{IsTrueReply};
ghost use Rattle.apd_answers.specs.declared.question.Question.{Question};
ghost use Rattle.apd_answers.specs.declared.question.Reply.{Reply};
ghost use Rattle.apd_demo.specs.Replies.{HoldsTree, TreeNodes, tree_reply};

use apd_answers::Intended;

/// What is replied about a tree is true of every interpretation in which, of the atoms of its nodes, those hold whose nodes are true.
pub fn replies_are_true<M: Intended>(_intended: &M)
    ensures { (t : TreeNodes) → HoldsTree t M.interpretation → (q : Question) (r : Reply) →
        tree_reply t q ≡ Some r → IsTrueReply M.interpretation q r }
{}
