//! A program that is known to be right, as one who replies.

ghost use Rattle.std.specs.Prelude.{◌≡◌, ◌<◌, ◌≤◌, length};
ghost use Rattle.apd_base.specs.declared.limits.TheConstants.{MOST_CLAUSES, MOST_NAMES, MOST_SHOWN};
ghost use Rattle.apd_term.specs.Named.{AllTuplesNamed};
ghost use Rattle.apd_clauses.specs.Clauses.{tuples_of};

use crate::new_names::after_clauses;
use crate::replies::reply_to;
use apd_answers::{Question, Replier, Reply};
use apd_clauses::Program;
use std::alloc::{AllocError, Global};
use std::marker::Model;

/// How many names are standard.
const STANDARD_NAMES: u64 = 132;

/// A program that is known to be right. It replies by what its runs of so many ports show. Contracts see the program and the number of
/// ports.
#[derive(Drop)]
pub struct Reference {
    alloc: Global,
    program: Program,
    budget: u32,
    /// The number after the standard names and those of the program.
    after: u64,
}

impl Model for Reference {
    ghost use Rattle.apd_reference.specs.Ready.{IsReady, RightProgram, right_program_code};

    ghost Value = { RightProgram };

    ghost coded = { right_program_code };

    ghost view = { λ r. record { program = r.program; budget = r.budget } };

    ghost invariant = { λ r. IsReady r.program r.after r.budget };
}

impl Reference {
    /// A program of fewer than 20,000 clauses, with names below 4,000,000,000, that is asked for 1 to 1,000,000 ports.
    pub fn new(alloc: Global, program: Program, budget: u32) -> Reference
        requires few { length program < MOST_CLAUSES }
        requires named { AllTuplesNamed MOST_NAMES (tuples_of program) }
        requires budget { 0 < budget }
        requires budget_limit { budget ≤ MOST_SHOWN }
        ensures program { result.program ≡ program }
        ensures budget { result.budget ≡ budget }
    {
        let after = after_clauses(STANDARD_NAMES, &program);
        Reference {
            alloc,
            program,
            budget,
            after,
        }
    }
}

impl Replier for Reference {
    ghost use Rattle.apd_answers.specs.Repliers.{RepliesAreNamed, RepliesFit};
    ghost use Rattle.apd_clauses.specs.Clauses.{tuples_of};
    ghost use Rattle.apd_reference.specs.NewNames.{after_program};
    ghost use Rattle.apd_reference.specs.Replying.{reference_reply};
    ghost use Rattle.std.specs.Prelude.{IfOk};

    ghost replies = { λ r q. reference_reply (tuples_of r.program) r.budget q };

    ghost names = { λ r. after_program (tuples_of r.program) };

    fn reply(&mut self, question: &Question) -> Result<Option<Reply>, AllocError>
        ensures reply { IfOk result
            (λ r. r ≡ reference_reply (tuples_of self.old.program) self.old.budget question.now) }
        ensures same { self.new ≡ self.old }
        ensures fits { RepliesFit (reference_reply (tuples_of self.old.program) self.old.budget) }
        ensures named { RepliesAreNamed (after_program (tuples_of self.old.program))
            (reference_reply (tuples_of self.old.program) self.old.budget) }
    {
        let _count = self.program.count();
        reply_to(
            self.alloc,
            &mut self.program,
            self.after,
            self.budget,
            question,
        )
    }
}
