//! The choices of a search as they are kept.

ghost use Rattle.std.specs.Prelude.{◌≡◌, ◌∷◌, [], IfOk, OnOk, MatchOption};

use crate::search::Choice;
use apd_base::MOST_CLAUSES;
use apd_base::stack::Stack;
use std::alloc::AllocError;
use std::marker::Model;
use std::mem::size_of;

/// What stands in place of the next clause's index where no clauses are left to be tried.
const AGAIN: u32 = 4_294_967_295;

const OVER: u32 = 4_294_967_294;

const CLOSING: u32 = 4_294_967_293;

const _: () = prove!(MOST_CLAUSES < CLOSING);

/// A choice as it is kept. Contracts see the choice.
#[derive(Drop)]
pub struct KeptChoice {
    box_no: u32,
    next: u32,
}

const _: () = prove!(size_of::<KeptChoice>() == 8);

impl Model for KeptChoice {
    ghost use Rattle.apd_engine.specs.declared.search.Choice.{Choice};
    ghost use Rattle.apd_engine.specs.Choices.{choice_in};

    ghost Value = { Choice };

    ghost view = { λ c. choice_in c.box_no c.next };
}

impl KeptChoice {
    /// The choice as it is kept; want of memory where the next clause's index is too great.
    #[inline(always)]
    fn of(choice: Choice) -> Result<KeptChoice, AllocError>
        ensures { IfOk result (λ c. c ≡ choice) }
    {
        match choice {
            Choice::Alternatives(box_no, next) => {
                if next >= CLOSING {
                    return Err(AllocError);
                }
                Ok(KeptChoice { box_no, next })
            }
            Choice::Again => Ok(KeptChoice {
                box_no: 0,
                next: AGAIN,
            }),
            Choice::Closing(box_no) => Ok(KeptChoice {
                box_no,
                next: CLOSING,
            }),
            Choice::Over(box_no) => Ok(KeptChoice { box_no, next: OVER }),
        }
    }

    /// The choice.
    #[inline(always)]
    fn get(&self) -> Choice
        ensures { result ≡ self.now }
    {
        if self.next == CLOSING {
            return Choice::Closing(self.box_no);
        }
        if self.next == OVER {
            return Choice::Over(self.box_no);
        }
        if self.next == AGAIN {
            return Choice::Again;
        }
        Choice::Alternatives(self.box_no, self.next)
    }
}

/// A choice is put on the others.
#[inline(always)]
pub fn push(stack: &mut Stack<KeptChoice>, choice: Choice) -> Result<(), AllocError>
    ensures { OnOk result (stack.new ≡ choice ∷ stack.old) }
{
    let kept = KeptChoice::of(choice)?;
    stack.push(kept)
}

/// The newest choice is taken from the others.
#[inline(always)]
pub fn pop(stack: &mut Stack<KeptChoice>) -> Option<Choice>
    ensures { MatchOption result
        ((stack.old ≡ []) × (stack.new ≡ []))
        (λ c. stack.old ≡ c ∷ stack.new) }
{
    match stack.pop() {
        None => None,
        Some(kept) => Some(kept.get()),
    }
}
