//! A stack.

ghost use Rattle.std.specs.Prelude.{◌≡◌, ◌∷◌, [], length, drop, reverse, slice_get, Some, OnOk, OnErr, IfSome, MatchOption};

use crate::room::room_for_one;
use std::alloc::{AllocError, Global};
use std::marker::Model;

/// A stack. Contracts see its list, the newest first.
#[derive(Drop)]
pub struct Stack<T> {
    oldest_first: Vec<T>,
}

impl<T> Model for Stack<T> {
    ghost use Rattle.std.specs.Prelude.{List, reverse};

    ghost Value = { List T };

    ghost view = { λ s. reverse s.oldest_first.items };
}

impl<T> Stack<T> {
    pub fn new(alloc: Global) -> Stack<T>
        ensures { result ≡ [] }
    {
        Stack {
            oldest_first: Vec::new(alloc),
        }
    }

    #[inline(always)]
    pub fn push(&mut self, x: T) -> Result<(), AllocError>
    where
        T: Drop,
        ensures ok { OnOk result (self.new ≡ x ∷ self.old) }
        ensures err { OnErr result (self.new ≡ self.old) }
    {
        room_for_one(&mut self.oldest_first)?;
        self.oldest_first.push_reserved(x);
        Ok(())
    }

    pub fn pop(&mut self) -> Option<T>
        ensures { MatchOption result
            ((self.old ≡ []) × (self.new ≡ []))
            (λ x. self.old ≡ x ∷ self.new) }
    {
        self.oldest_first.pop()
    }

    /// The newest.
    pub fn top(&self) -> Option<&T>
        ensures { MatchOption result
            (self.now ≡ [])
            (λ x. self.now ≡ x.now ∷ drop 1 self.now) }
    {
        self.oldest_first.last()
    }

    /// That at this place, counted from the oldest.
    pub fn get(&self, place: usize) -> Option<&T>
        ensures { IfSome result (λ x. slice_get (reverse self.now) place ≡ Some x.now) }
    {
        self.oldest_first.get(place)
    }

    /// All, the oldest first.
    pub fn as_slice(&self) -> &[T]
        ensures { result.now ≡ reverse self.now }
    {
        self.oldest_first.as_slice()
    }

    /// All, the oldest first.
    pub fn into_vec(self) -> Vec<T>
        ensures { result.items ≡ reverse self }
    {
        let Stack { oldest_first } = self;
        oldest_first
    }

    pub fn len(&self) -> usize
        ensures { result ≡ length self.now }
    {
        self.oldest_first.len()
    }

    pub fn clear(&mut self)
    where
        T: Drop,
        ensures { self.new ≡ [] }
    {
        self.oldest_first.clear();
    }
}
