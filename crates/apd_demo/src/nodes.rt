//! The nodes of a tree by the predicates of their atoms.

ghost use Rattle.std.specs.Prelude.{◌≡◌, ◌≤◌, IfOk, IfSome};
ghost use Rattle.apd_clauses.specs.Predicates.{same_pred};
ghost use Rattle.apd_demo.specs.Replies.{heads_of, place_from, reply_about};
ghost use Rattle.apd_gen.specs.Nodes.{IsNodeCount};

use apd_answers::Reply;
use apd_clauses::Program;
use apd_gen::node_true;
use apd_term::{Pred, Preds};
use std::alloc::{AllocError, Global};

/// The predicates of the heads of a program's clauses, in order.
pub(crate) fn heads_of(alloc: Global, program: &Program) -> Result<Preds, AllocError>
    ensures { IfOk result (λ p. p ≡ heads_of program.now) }
{
    let mut preds = Preds::new(alloc);
    'clauses: for i in 0..program.count() {
        match program.clause(i + 1).tuple.head.pred() {
            Some(pred) => preds.push(pred)?,
            None => {}
        }
    }
    Ok(preds)
}

/// Whether two predicates are one.
fn same_pred(pred: Pred, other: Pred) -> bool
    ensures { result ≡ same_pred pred other }
{
    pred.name.0 == other.name.0 && pred.arity == other.arity
}

/// The place of the predicate among these, counted from 1.
pub(crate) fn place_of(preds: &[Pred], pred: Pred) -> Option<usize>
    ensures place { result ≡ place_from 1 preds.now pred }
    ensures positive { IfSome result (λ i. 1 ≤ i) }
{
    'preds: for i in 0..preds.len() {
        if same_pred(pred, preds[i]) {
            return Some(i + 1);
        }
    }
    None
}

/// What is replied about this node of so many.
pub(crate) fn reply_about(nodes: u32, node: Option<usize>) -> Option<Reply>
    requires count { IsNodeCount nodes }
    requires node { IfSome node (λ i. 1 ≤ i) }
    ensures { result ≡ reply_about nodes node }
{
    let number = node?;
    if number > nodes as usize {
        return None;
    }
    if node_true(nodes, number as u32) {
        Some(Reply::Yes)
    } else {
        Some(Reply::No)
    }
}
