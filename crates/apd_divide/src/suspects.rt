//! The suspects of a proof tree as rows, one for each node.

ghost use Rattle.std.specs.Prelude.{◌≡◌, ◌≤◌, ◌<◌, ◌↔◌, ◌++◌, ◌+◌, ◌^◌, ◌&&◌, nat_lt, true, if◌then◌else◌, length, slice_get, None, IsSome, IfSome, IfOk, OnOk};
ghost use Rattle.apd_divide.specs.declared.node.NodeRow.{NodeRow};
ghost use Rattle.apd_divide.specs.declared.node.Strategy.TheVariants.{Divide};
ghost use Rattle.apd_divide.specs.Tree.{label, children, suspects, clause_at, instance, branching, lost_by, candidates, doubts_of};
ghost use Rattle.apd_divide.specs.Choice.{judged, standing_for, is_listed, EachIsTrue};
ghost use Rattle.apd_divide.specs.Kept.{Kept, kept_at, IsKept, tree_of, cut_of, replaced, IsChosen, LeavesFraction, TakesItsShare, forest_from};
ghost use Rattle.apd_divide.specs.Cleared.{cleared_below};
ghost use Rattle.apd_divide.specs.Rows.{broadest, rows_of};
ghost use Rattle.apd_divide.specs.Recorded.{tree};
ghost use Rattle.apd_divide.specs.Seeking.{LeadsBelow};
ghost use Rattle.apd_divide.specs.Exits.{IsLabelled};

use crate::growing::grown;
use crate::node::{NodeId, NodeRow, Standing, Strategy, Verdict};
use crate::spans::set_spans;
use crate::walk::{chosen_place, clear_listed, first_listed};
use apd_ports::PointId;
use apd_record::Record;
use apd_term::{Flat, Instance, Instances, Preds, Tuple};
use std::alloc::{AllocError, Global};
use std::marker::Model;

/// The greatest number of nodes right below one.
fn broadest(rows: &[NodeRow<'_>]) -> u32
    ensures { result ≡ broadest rows.now }
{
    let mut most: u32 = 0;
    'rows: for row in rows {
        most = most.max(row.arity);
    }
    most
}

/// How a node stands that is judged so; none where it becomes the root.
fn standing_for(value: Verdict) -> Option<Standing>
    ensures { result ≡ standing_for value }
{
    match value {
        Verdict::True => Some(Standing::Cleared),
        Verdict::False => None,
        Verdict::Unknown => Some(Standing::Doubted),
    }
}

/// How many suspects fewer there are once a suspect of this weight stands so.
fn lost_by(standing: Standing, weight: u32) -> u32
    ensures { result ≡ lost_by standing weight }
{
    match standing {
        Standing::Open => 0,
        Standing::Cleared => weight,
        Standing::Doubted => 1,
    }
}

/// Whether no suspect was passed by yet, once a tree of this weight is passed by; false says nothing.
fn stays_first(is_first: bool, weight: u32) -> bool
    ensures { result ≡ true → (is_first ≡ true) × (weight ≡ 0) }
{
    is_first && weight == 0
}

/// From where on the first suspect is found: from this place, where the tree there has a suspect and none was passed by, else
/// from the first row.
fn found_from(is_first: bool, weight: u32, place: usize) -> usize
    ensures { result ≡ (if is_first && nat_lt 0 weight then place else 0) }
{
    if is_first && weight > 0 { place } else { 0 }
}

/// The suspect at a place stands as it is judged: it has fewer suspects, and so have those above it. The answer is from where
/// on behind the root the first suspect is found, in the order in which a node comes after those below it: the node right above
/// the place, where that has suspects and none comes before it.
fn mark(rows: &mut [NodeRow<'_>], root: usize, node: usize, standing: Standing) -> usize
    requires kept { IsKept (kept_at rows.old root) }
    requires suspect { IsSome (cut_of (kept_at rows.old root) node) }
    requires there { node < length rows.old }
    ensures marked { let k = kept_at rows.old root in
        IfSome (cut_of k node) (λ c. rows.new ≡ replaced k (c.rest standing)) }
    ensures leads { IfSome (cut_of (kept_at rows.old root) node)
        (λ c. LeadsBelow (c.rest standing) result) }
{
    let lost = lost_by(standing, rows[node].weight);
    let mut is_first = true;
    let mut last = root;
    let mut above: u32 = 0;
    let mut at = root;
    'rows: while at < node {
        let span = rows[at].span as usize;
        if at + span <= node {
            is_first = stays_first(is_first, rows[at].weight);
            at += span;
        } else {
            above = rows[at].weight - lost;
            rows[at].weight = above;
            last = at;
            at += 1;
        }
    }
    let row = &mut rows[node];
    row.weight -= lost;
    row.standing = standing;
    found_from(is_first, above, last.saturating_sub(root + 1))
}

/// Judges suspects of these predicates true, the first in the order in which a node comes before those below it, until there is
/// none.
fn clear_below(rows: &mut [NodeRow<'_>], root: usize, preds: &Preds)
    requires kept { IsKept (kept_at rows.old root) }
    requires there { root < length rows.old }
    ensures { let k = kept_at rows.old root in
        rows.new ≡ replaced k (cleared_below (is_listed preds.now) (tree_of k)) }
{
    let end = root + rows[root].span as usize;
    clear_listed(&mut rows[root + 1..end], preds);
    set_spans(&mut rows[root..end]);
}

/// The instance of a row.
fn instance_of(alloc: Global, row: &NodeRow<'_>) -> Result<Instance, AllocError>
    ensures clause { IfOk result (λ i. i.clause ≡ row.now.clause) }
    ensures tuple { IfOk result (λ i. i.tuple ≡ row.now.tuple) }
{
    let tuple = row.tuple.tuple(alloc)?;
    Ok(Instance {
        clause: row.clause,
        tuple,
    })
}

/// Puts the instances of the nodes that were judged unknown, and aren't below one that was judged true, at the end.
fn push_doubts(
    alloc: Global,
    rows: &[NodeRow<'_>],
    instances: &mut Instances,
) -> Result<(), AllocError>
    requires { rows.now ≡ rows_of (forest_from rows.now) }
    ensures { OnOk result (instances.new ≡ instances.old ++ doubts_of (forest_from rows.now)) }
{
    let mut at: usize = 0;
    'rows: while at < rows.len() {
        let row = &rows[at];
        match row.standing {
            Standing::Open => at += 1,
            Standing::Cleared => at += row.span as usize,
            Standing::Doubted => {
                instances.push(instance_of(alloc, row)?)?;
                at += 1;
            }
        }
    }
    Ok(())
}

/// The suspects of a proof tree. A node comes before those below it, and those below it stand right behind it.
#[derive(Drop)]
pub struct Suspects<'a> {
    alloc: Global,
    rows: Vec<NodeRow<'a>>,
    root: usize,
    /// From where on behind the root the first suspect is found, in the order in which a node comes after those below it.
    from: usize,
}

impl<'a> Model for Suspects<'a> {
    ghost use Rattle.std.specs.Prelude.{◌≡◌, length, vec_len};
    ghost use Rattle.apd_divide.specs.Kept.{Kept, IsKept, kept_code};
    ghost use Rattle.apd_divide.specs.Seeking.{Leads};

    ghost Value = { Kept };

    ghost coded = { kept_code };

    ghost view = { λ s. record { rows = s.rows.items; root = s.root } };

    ghost invariant = { λ s. IsKept (record { rows = s.rows.items; root = s.root }) × (vec_len s.rows ≡ length s.rows.items)
        × Leads (record { rows = s.rows.items; root = s.root }) s.from };
}

impl<'a> Suspects<'a> {
    /// The suspects of the proof tree of a recorded exit, with this label at its root. Want of memory too where the tree
    /// would have 2 ^ 32 nodes.
    pub fn build(
        alloc: Global,
        recorded: &'a Record,
        exit: PointId,
        label: &Flat,
    ) -> Result<Suspects<'a>, AllocError>
        requires { IsLabelled recorded.now exit.0 label.now }
        ensures tree { IfOk result (λ s. tree_of s ≡ tree recorded.now exit.0 label.now) }
        ensures branching { IfOk result (λ s. broadest s.rows ≡
            branching (tree recorded.now exit.0 label.now)) }
    {
        recorded.is_kept();
        let mut rows = grown(alloc, recorded, exit, label)?;
        set_spans(&mut rows);
        Ok(Suspects {
            alloc,
            rows,
            root: 0,
            from: 0,
        })
    }

    /// The rows of the trees below the root.
    fn below(&self) -> &[NodeRow<'a>]
        ensures trees { result.now ≡ rows_of (children (tree_of self.now)) }
        ensures within { self.now.root + length result.now < length self.now.rows }
        ensures few { length self.now.rows < 2 ^ 32 }
    {
        let row = &self.rows[self.root];
        &self.rows[self.root + 1..self.root + row.span as usize]
    }

    /// The label of a node of the built tree. The only error is want of memory.
    pub fn label(&self, node: NodeId) -> Result<Flat, AllocError>
        requires { node.0 < length self.now.rows }
        ensures row { IfOk result (λ l. IfSome (slice_get self.now.rows node.0)
            (λ (r : NodeRow). l ≡ r.tuple.head)) }
        ensures suspect { IfOk result (λ l. IfSome (cut_of self.now node.0)
            (λ c. l ≡ label c.chosen)) }
    {
        let label = self.rows[node.0 as usize].tuple.head(self.alloc)?;
        Ok(label)
    }

    /// How many suspects there are.
    pub fn count(&self) -> u32
        ensures { result ≡ suspects (tree_of self.now) }
    {
        self.rows[self.root].weight - 1
    }

    /// The greatest number of nodes right below one in the built tree.
    pub fn branching(&self) -> u32
        ensures built { result ≡ broadest self.now.rows }
        ensures bound { branching (tree_of self.now) ≤ result }
    {
        broadest(self.rows.as_slice())
    }

    /// The node to ask about; none exactly where no suspect is left. Under `Divide` its weight is at most
    /// half of the suspects and at least one in b of the half, so yes and no each leave at most (2b - 1) / (2b) of them, where
    /// no live node is judged unknown and no node of the built tree has more than b nodes right below it.
    pub fn choose(&self, strategy: Strategy) -> Option<NodeId>
        ensures none { (result ≡ None) ↔ (suspects (tree_of self.now) ≡ 0) }
        ensures choice { IfSome result (λ n. IsChosen strategy self.now n.0) }
        ensures there { IfSome result (λ n. n.0 < length self.now.rows) }
        ensures share { strategy ≡ Divide →
            IfSome result (λ n. IfSome (cut_of self.now n.0) (TakesItsShare self.now)) }
        ensures fraction { strategy ≡ Divide →
            IfSome result (λ n. IfSome (cut_of self.now n.0) (LeavesFraction self.now)) }
    {
        let suspects = self.count();
        if suspects == 0 {
            return None;
        }
        let row = &self.rows[self.root];
        let below = &self.rows[self.root + 1..self.root + row.span as usize];
        let place = chosen_place(below, strategy, suspects, self.from);
        Some(NodeId((self.root + 1 + place) as u32))
    }

    /// Judges a suspect: one judged true is cleared with those below it, one judged false becomes the root, and one judged
    /// unknown is no suspect any more, but those below it are.
    pub fn judge(&mut self, node: NodeId, value: Verdict)
        requires { IsSome (cut_of self.old node.0) }
        ensures judged { IfSome (cut_of self.old node.0) (λ c. tree_of self.new ≡ judged c value) }
        ensures nodes { length self.new.rows ≡ length self.old.rows }
        ensures branching { broadest self.new.rows ≡ broadest self.old.rows }
    {
        let place = node.0 as usize;
        match standing_for(value) {
            Some(standing) => {
                let from = mark(&mut self.rows, self.root, place, standing);
                self.from = from;
            }
            None => {
                self.root = place;
                self.from = 0;
            }
        }
    }

    /// The root's clause and instance, where no suspect is left.
    pub fn instance(&self) -> Result<(u32, Tuple), AllocError>
        requires { suspects (tree_of self.now) ≡ 0 }
        ensures clause { IfOk result (λ r. r.0 ≡ clause_at (tree_of self.now)) }
        ensures tuple { IfOk result (λ r. r.1 ≡ instance (tree_of self.now)) }
    {
        let row = &self.rows[self.root];
        Ok((row.clause, row.tuple.tuple(self.alloc)?))
    }

    /// The instances of the root and of each live node that was judged unknown, in the order in which a node comes before those
    /// below it, where no suspect is left.
    pub fn candidates(&self) -> Result<Instances, AllocError>
        requires { suspects (tree_of self.now) ≡ 0 }
        ensures { IfOk result (λ is. is ≡ candidates (tree_of self.now)) }
    {
        let mut instances = Instances::new(self.alloc);
        instances.push(instance_of(self.alloc, &self.rows[self.root])?)?;
        push_doubts(self.alloc, self.below(), &mut instances)?;
        Ok(instances)
    }

    /// Judges suspects of these predicates true, the first in the order in which a node comes before those below it, until there
    /// is none.
    pub fn judge_listed(&mut self, preds: &Preds)
        ensures judged { EachIsTrue (is_listed preds.now) (tree_of self.old) (tree_of self.new) }
        ensures nodes { length self.new.rows ≡ length self.old.rows }
        ensures branching { broadest self.new.rows ≡ broadest self.old.rows }
    {
        let Some(_first) = first_listed(self.below(), preds) else {
            return;
        };
        clear_below(&mut self.rows, self.root, preds);
        self.from = 0;
    }
}
