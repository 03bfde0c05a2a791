//! Who is asked before the user: nobody, a program that is known to be right, or the tree of a demonstration.

ghost use Rattle.std.specs.Prelude.{◌≡◌};
ghost use Rattle.apd_reference.specs.Referees.{is_marked};

use crate::reference::Reference;
use apd_answers::{Question, Replier, Reply};
use apd_demo::TreeReplier;
use std::alloc::AllocError;

/// Who is asked before the user.
#[derive(Drop)]
pub enum Referee {
    /// Nobody.
    Nobody,
    /// A program that is known to be right.
    Program(Reference),
    /// The tree of a demonstration.
    Tree(TreeReplier),
}

impl Referee {
    /// Whether its replies are marked as a reference program's.
    pub fn is_marked(&self) -> bool
        ensures { result ≡ is_marked self.now }
    {
        match self {
            Referee::Nobody | Referee::Tree(_) => false,
            Referee::Program(_) => true,
        }
    }
}

impl Replier for Referee {
    ghost use Rattle.apd_reference.specs.Referees.{names_known, replies_of};

    ghost replies = { replies_of };

    ghost names = { names_known };

    fn reply(&mut self, question: &Question) -> Result<Option<Reply>, AllocError> {
        match self {
            Referee::Nobody => Ok(None),
            Referee::Program(reference) => reference.reply(question),
            Referee::Tree(tree) => tree.reply(question),
        }
    }
}
