//! What replies say of which calls are below which, by numbers of calls.

ghost use Rattle.std.specs.Prelude.{◌≡◌, ◌↔◌, ◌<◌, List, [], ℕ, length, IfOk, OnOk, IsTrue};
ghost use Rattle.apd_term.specs.Canonical.{canonical};
ghost use Rattle.apd_answers.specs.Findings.{Apart};
ghost use Rattle.apd_answers.specs.Store.{Store, with_pair_in};
ghost use Rattle.apd_answers.specs.declared.question.Question.TheVariants.{Below};
ghost use Rattle.apd_answers.specs.declared.store.Pair.{Pair};
ghost use Rattle.apd_findings.specs.Ordering.{AreOrders, HasLists, IsNumbered, IsReached, keys_of};
ghost use Rattle.apd_findings.specs.Reaching.{HasReached};

use crate::keys::{Keys, key_of_form};
use crate::reaching::{Edge, Rows, caught_up, has_some, row_from};
use apd_answers::{Question, Reply};
use apd_base::ListOf;
use apd_bits::Row;
use apd_term::Flat;
use indexmap::{IndexMap, IndexSet};
use std::alloc::{AllocError, Global};
use std::mem::replace;

/// More edges are fresh than these and one for eight calls: then what is kept is made anew when it is asked for.
const MOST_FRESH: usize = 64;

/// At most so many steps are made to keep what is reached; what isn't kept is walked over where it is asked for.
const MOST_STEPS: usize = 100_000_000;

/// Has those of the numbers wait that weren't begun.
fn await_new(nexts: &[usize], begun: &Row, waiting: &mut Vec<usize>) -> Result<(), AllocError> {
    'nexts: for next in nexts {
        if !begun.has(*next) {
            waiting.push(*next)?;
        }
    }
    Ok(())
}

/// Calls by their numbers, from 0: of each those that it was said to be below, and those that it was said not to be below.
#[derive(Drop)]
pub(crate) struct Orders {
    alloc: Global,
    keys: Keys,
    above: Vec<ListOf<usize>>,
    denied: Vec<ListOf<usize>>,
    /// Of callers that were asked about, and of all that are reached from them: the numbers that are reached from each.
    reached: Rows,
    /// The edges that came since something is kept: what is kept may lack what these lead to.
    fresh: Vec<Edge>,
}

impl Orders {
    /// Nothing is said of any call.
    pub(crate) fn new(alloc: Global) -> Orders
        ensures { AreOrders [] result }
    {
        Orders {
            alloc,
            keys: IndexSet::new(alloc),
            above: Vec::new(alloc),
            denied: Vec::new(alloc),
            reached: IndexMap::new(alloc),
            fresh: Vec::new(alloc),
        }
    }

    /// The number of a call, which has one from now on.
    fn number(&mut self, call: &Flat) -> Result<usize, AllocError>
        requires { HasLists self.old }
        ensures { IfOk result (IsNumbered self.old self.new call.now) }
    {
        let key = key_of_form(self.alloc, call)?;
        let (number, is_new) = self.keys.insert_full(key)?;
        if is_new {
            self.above.push(ListOf::new(self.alloc))?;
            self.denied.push(ListOf::new(self.alloc))?;
        }
        Ok(number)
    }

    /// It is said whether the one call is below the other.
    fn put_order(&mut self, callee: &Flat, caller: &Flat, reply: &Reply) -> Result<(), AllocError>
        requires { HasLists self.old }
        ensures { OnOk result ((pairs : List Pair) → AreOrders pairs self.old
            → AreOrders (with_pair_in pairs (Below callee.now caller.now) reply.now) self.new) }
    {
        let low = self.number(callee)?;
        let high = self.number(caller)?;
        match reply {
            Reply::Yes => {
                self.fresh.push(Edge {
                    from: low,
                    to: high,
                })?;
                self.above[low].push(high)
            }
            Reply::No => self.denied[low].push(high),
            _ => Ok(()),
        }
    }

    /// A question is replied to so.
    pub(crate) fn put(&mut self, question: &Question, reply: &Reply) -> Result<(), AllocError>
        requires { HasLists self.old }
        ensures { OnOk result ((pairs : List Pair) → AreOrders pairs self.old
            → AreOrders (with_pair_in pairs question.now reply.now) self.new) }
    {
        match question {
            Question::Below(callee, caller) => self.put_order(callee, caller, reply),
            _ => Ok(()),
        }
    }

    /// Whether nothing is kept, or many edges are fresh.
    fn is_stale(&self) -> bool {
        self.reached.is_empty() || self.fresh.len() > MOST_FRESH + self.keys.len() / 8
    }

    /// Forgets what is kept where many edges are fresh.
    fn settle(&mut self)
        ensures { (pairs : List Pair) → AreOrders pairs self.old → AreOrders pairs self.new }
    {
        if !self.is_stale() {
            return;
        }
        drop(replace(&mut self.reached, IndexMap::new(self.alloc)));
        drop(replace(&mut self.fresh, Vec::new(self.alloc)));
    }

    /// Keeps what is reached from a number.
    fn keep_row(&mut self, number: usize) -> Result<(), AllocError>
        requires number { number < length (keys_of self.old) }
        requires orders { (pairs : List Pair) × AreOrders pairs self.old }
        ensures { (pairs : List Pair) → AreOrders pairs self.old → AreOrders pairs self.new }
    {
        let row = row_from(self.alloc, self.above.as_slice(), &self.reached, number)?;
        self.reached.insert(number, row)?;
        Ok(())
    }

    /// Keeps what is reached from a number that was begun; else begins it, so that those come first to which it leads.
    fn keep_next(
        &mut self,
        number: usize,
        begun: &mut Row,
        waiting: &mut Vec<usize>,
    ) -> Result<(), AllocError>
        requires { (pairs : List Pair) × AreOrders pairs self.old }
        ensures { (pairs : List Pair) → AreOrders pairs self.old → AreOrders pairs self.new }
    {
        if self.above.len() <= number || self.reached.contains_key(&number) {
            return Ok(());
        }
        if begun.has(number) {
            return self.keep_row(number);
        }
        begun.set(number)?;
        waiting.push(number)?;
        await_new(self.above[number].as_slice(), begun, waiting)
    }

    /// Keeps what is reached from a number, and from each that is reached from it, the last ones first.
    fn keep_from(&mut self, first: usize) -> Result<(), AllocError>
        requires { (pairs : List Pair) × AreOrders pairs self.old }
        ensures { (pairs : List Pair) → AreOrders pairs self.old → AreOrders pairs self.new }
    {
        let mut begun = Row::new(self.alloc);
        let mut waiting = Vec::new(self.alloc);
        waiting.push(first)?;
        'steps: for _step in 0..MOST_STEPS {
            let Some(number) = waiting.pop() else {
                return Ok(());
            };
            self.keep_next(number, &mut begun, &mut waiting)?;
        }
        Ok(())
    }

    /// Computes ahead what is reached from a caller, if it has a number.
    pub(crate) fn prepare(&mut self, caller: &Flat) -> Result<(), AllocError>
        requires { (pairs : List Pair) × AreOrders pairs self.old }
        ensures { (pairs : List Pair) → AreOrders pairs self.old → AreOrders pairs self.new }
    {
        self.settle();
        match self.keys.get_index_of(&key_of_form(self.alloc, caller)?) {
            Some(high) => self.keep_from(high),
            None => Ok(()),
        }
    }

    /// Whether the row, of what is reached from some number, has this one or one that is denied to it.
    fn is_met(&self, row: &Row, low: usize) -> bool
        requires { low < length self.now.denied.items }
        ensures { (high : ℕ) → HasReached self.now.above.items high row.now → IsTrue result ↔
            IsReached self.now.above.items self.now.denied.items low high }
    {
        if row.has(low) {
            return true;
        }
        has_some(row, self.denied[low].as_slice())
    }

    /// What is reached from a number, by what is kept of it or by a walk.
    fn row_of(&self, high: usize) -> Result<Row, AllocError>
        requires high { high < length (keys_of self.now) }
        requires orders { (pairs : List Pair) × AreOrders pairs self.now }
        ensures { IfOk result (HasReached self.now.above.items high) }
    {
        let above = self.above.as_slice();
        match self.reached.get(&high) {
            Some(row) => caught_up(self.alloc, above, self.fresh.as_slice(), row),
            None => row_from(self.alloc, above, &IndexMap::new(self.alloc), high),
        }
    }

    /// Whether some call that the one was said not to be below, or the call itself, is reached from the other.
    fn is_reached(&self, low: usize, high: usize) -> Result<bool, AllocError>
        requires low { low < length (keys_of self.now) }
        requires high { high < length (keys_of self.now) }
        requires orders { (pairs : List Pair) × AreOrders pairs self.now }
        ensures { IfOk result (λ b. IsTrue b ↔
            IsReached self.now.above.items self.now.denied.items low high) }
    {
        let row = self.row_of(high)?;
        Ok(self.is_met(&row, low))
    }

    /// Whether it follows from the store whose orders these are that the one call isn't below the other.
    pub(crate) fn is_apart(&self, callee: &Flat, caller: &Flat) -> Result<bool, AllocError>
        requires callee { canonical callee.now ≡ callee.now }
        requires caller { canonical caller.now ≡ caller.now }
        requires orders { (pairs : List Pair) × AreOrders pairs self.now }
        ensures { IfOk result (λ b. (store : Store) → AreOrders store.pairs self.now
            → IsTrue b ↔ Apart store callee.now caller.now) }
    {
        if callee.same(caller) {
            return Ok(true);
        }
        let Some(high) = self.keys.get_index_of(&key_of_form(self.alloc, caller)?) else {
            return Ok(false);
        };
        let Some(low) = self.keys.get_index_of(&key_of_form(self.alloc, callee)?) else {
            return Ok(false);
        };
        self.is_reached(low, high)
    }
}
