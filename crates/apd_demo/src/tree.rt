//! A tree of which one node is wrong, as one who replies.

ghost use Rattle.std.specs.Prelude.{◌≡◌, IfOk};
ghost use Rattle.apd_demo.specs.Replies.{nodes_in};
ghost use Rattle.apd_gen.specs.Nodes.{IsNodeCount};

use crate::nodes::{heads_of, place_of, reply_about};
use apd_answers::{Question, Replier, Reply};
use apd_clauses::Program;
use apd_term::Preds;
use std::alloc::{AllocError, Global};
use std::marker::Model;

/// A tree of which one node is wrong. It replies whether the atom of a node is true. Contracts see the number of its nodes, from 1 to
/// 10,000, and their predicates.
#[derive(Drop)]
pub struct TreeReplier {
    nodes: u32,
    preds: Preds,
}

impl Model for TreeReplier {
    ghost use Rattle.std.specs.Prelude.{refl};
    ghost use Rattle.std.specs.Coded.{code_by, coded×, coded_list, coded_ℕ};
    ghost use Rattle.apd_answers.specs.Codes.{pred_code};
    ghost use Rattle.apd_demo.specs.Replies.{TreeNodes};
    ghost use Rattle.apd_gen.specs.Nodes.{IsNodeCount};

    ghost Value = { TreeNodes };

    ghost coded = { code_by _ (coded× coded_ℕ (coded_list pred_code)) (λ t. (t.count, t.preds)) (λ p. record { count = p.0; preds = p.1 }) (λ _. refl) };

    ghost view = { λ t. record { count = t.nodes; preds = t.preds } };

    ghost invariant = { λ t. IsNodeCount t.nodes };
}

impl TreeReplier {
    /// The tree of so many nodes, from 1 to 10,000, whose program this is: the clauses of the nodes in order. The only error is want
    /// of memory.
    pub fn new(alloc: Global, nodes: u32, program: &Program) -> Result<TreeReplier, AllocError>
        requires { IsNodeCount nodes }
        ensures { IfOk result (λ t. t ≡ nodes_in nodes program.now) }
    {
        Ok(TreeReplier {
            nodes,
            preds: heads_of(alloc, program)?,
        })
    }
}

impl Replier for TreeReplier {
    ghost use Rattle.apd_demo.specs.Replies.{tree_reply};

    ghost replies = { tree_reply };

    ghost names = { λ t. 0 };

    fn reply(&mut self, question: &Question) -> Result<Option<Reply>, AllocError> {
        match question {
            Question::True(atom) => {
                let Some(pred) = atom.pred() else {
                    return Ok(None);
                };
                let node = place_of(self.preds.as_slice(), pred);
                Ok(reply_about(self.nodes, node))
            }
            Question::Covers(_) | Question::Below(_, _) => Ok(None),
        }
    }
}
