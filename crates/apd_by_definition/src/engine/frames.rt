//! Frames as their clauses' instances, with all bindings applied.
//!
//! An instance without variables is the same under every substitution, so it is shared.

ghost use Rattle.std.specs.Prelude.{◌≡◌, ◌∷◌, [], ℕ, ◌+◌, ◌<◌, ◌^◌, length, map, None, Some, IfOk, MatchOption};
ghost use Rattle.std.specs.Bool.{OnTrue};
ghost use Rattle.apd_term.specs.Term.{Term};
ghost use Rattle.apd_term.specs.Substitution.{term_for};
ghost use Rattle.apd_term.specs.Tuple.{apply_tuple, canonical_tuple};
ghost use Rattle.apd_trace.specs.Frames.{apply_frame, apply_frames, called, left, look_at, look_of, goal_of, handed_all, outer, owner_of, next_goal, query_frame};
ghost use Rattle.apd_by_definition.specs.Shared.{frame_of};
ghost use Rattle.apd_frames.specs.Kept.{is_large_of, exit_in, MayCall, Takes, newest_of, point_in};

use crate::engine::tuples::is_large;
use apd_term::canonical::canonical;
use apd_term::tuple::{apply_tuple, canonical_tuple};
use apd_term::{Flat, Subst, Tuple};
use apd_trace::{Called, Frame, Look, Point, Step};
use std::alloc::{AllocError, Global};
use std::marker::Model;
use std::rc::Rc;

/// A frame whose tuple may be shared with other lists.
#[derive(Drop)]
pub struct Node {
    pub box_no: u32,
    pub depth: u32,
    pub clause: u32,
    pub tuple: Rc<Tuple>,
    pub done: u8,
    pub point: u32,
}

/// Frames, the innermost first.
#[derive(Drop)]
pub struct FrameList {
    nodes: Vec<Node>,
}

impl Model for FrameList {
    ghost use Rattle.std.specs.Prelude.{List, map};
    ghost use Rattle.std.specs.Coded.{coded_list};
    ghost use Rattle.apd_trace.specs.declared.frame.Frame.{Frame};
    ghost use Rattle.apd_frames.specs.Codes.{frame_code};

    ghost Value = { List Frame };

    ghost coded = { coded_list frame_code };

    ghost use Rattle.apd_by_definition.specs.Shared.{frame_of};

    ghost view = { λ l. map frame_of l.nodes.items };
}

/// Whether no variable stands in the tuple, so that a substitution leaves it as it is.
fn is_ground(tuple: &Tuple) -> bool
    ensures { OnTrue result ((s : ℕ → Term) → apply_tuple s tuple.now ≡ tuple.now) }
{
    if !tuple.head.is_ground() {
        return false;
    }
    'atoms: for atom in tuple.body.as_slice() {
        if !atom.is_ground() {
            return false;
        }
    }
    true
}

/// The frame under a substitution. A tuple without variables is shared.
fn applied_node(alloc: Global, node: &Node, s: &Subst) -> Result<Node, AllocError>
    ensures { IfOk result (λ r. frame_of r ≡ apply_frame (term_for s.now) (frame_of node.now)) }
{
    let tuple = applied_tuple(alloc, &node.tuple, s)?;
    Ok(Node {
        box_no: node.box_no,
        depth: node.depth,
        clause: node.clause,
        tuple,
        done: node.done,
        point: node.point,
    })
}

/// The tuple under a substitution, shared where it has no variable.
fn applied_tuple(alloc: Global, tuple: &Rc<Tuple>, s: &Subst) -> Result<Rc<Tuple>, AllocError>
    ensures { IfOk result (λ r. r.value ≡ apply_tuple (term_for s.now) tuple.now.value) }
{
    if is_ground(tuple) {
        return tuple.clone();
    }
    let applied = apply_tuple(alloc, tuple, s)?;
    Ok(Rc::new(alloc, applied)?)
}

/// The same frame. Its tuple is shared.
fn copied_node(node: &Node) -> Result<Node, AllocError>
    ensures { IfOk result (λ r. frame_of r ≡ frame_of node.now) }
{
    Ok(Node {
        box_no: node.box_no,
        depth: node.depth,
        clause: node.clause,
        tuple: node.tuple.clone()?,
        done: node.done,
        point: node.point,
    })
}

/// The box that owns the innermost frame.
fn owner(nodes: &[Node]) -> u32
    ensures { result ≡ owner_of (map frame_of nodes.now) }
{
    match nodes {
        [] => 0,
        [first, ..] => first.box_no,
    }
}

/// The next goal of a frame.
fn goal_of(node: &Node) -> Option<&Flat>
    ensures { MatchOption result (goal_of (frame_of node.now) ≡ None)
        (λ a. goal_of (frame_of node.now) ≡ Some a.now) }
{
    node.tuple.body.get(node.done as usize)
}

/// The frame as a node of its own.
fn node_of(alloc: Global, frame: Frame) -> Result<Node, AllocError>
    ensures { IfOk result (λ n. frame_of n ≡ frame) }
{
    let tuple = Rc::new(alloc, frame.tuple)?;
    Ok(Node {
        box_no: frame.box_no,
        depth: frame.depth,
        clause: frame.clause,
        tuple,
        done: frame.done,
        point: frame.point,
    })
}

/// The frame under a substitution, as a node.
fn moved_node(alloc: Global, frame: &Frame, s: &Subst) -> Result<Node, AllocError>
    ensures { IfOk result (λ n. frame_of n ≡ apply_frame (term_for s.now) frame.now) }
{
    let tuple = apply_tuple(alloc, &frame.tuple, s)?;
    let moved = Frame {
        box_no: frame.box_no,
        depth: frame.depth,
        clause: frame.clause,
        tuple,
        done: frame.done,
        point: frame.point,
    };
    node_of(alloc, moved)
}

/// The goal of a frame, called in this box.
fn called(alloc: Global, node: &Node, goal: &Flat, box_no: u32) -> Result<Called, AllocError>
    requires { node.now.depth + 1 < 2 ^ 32 }
    ensures { IfOk result (λ g. g ≡ called (frame_of node.now) goal.now box_no) }
{
    let atom = canonical(alloc, goal)?;
    Ok(Called {
        box_no,
        caller: node.box_no,
        depth: node.depth + 1,
        atom,
    })
}

/// The head of a frame in its box.
fn left(alloc: Global, node: &Node, others: &[Node]) -> Result<Called, AllocError>
    ensures { IfOk result (λ g. g ≡ left (frame_of node.now) (map frame_of others.now)) }
{
    let atom = canonical(alloc, &node.tuple.head)?;
    Ok(Called {
        box_no: node.box_no,
        caller: owner(others),
        depth: node.depth,
        atom,
    })
}

/// What a frame does that has no goal left.
fn look_over(alloc: Global, node: &Node, others: &[Node]) -> Result<Look, AllocError>
    ensures { IfOk result (λ l. l ≡ look_at None (frame_of node.now) (map frame_of others.now) 0) }
{
    if node.box_no == 0 {
        let values = canonical(alloc, &node.tuple.head)?;
        return Ok(Look::Answer(values));
    }
    let g = left(alloc, node, others)?;
    Ok(Look::Exit(g, node.point))
}

impl FrameList {
    /// No frame.
    pub fn empty(alloc: Global) -> FrameList
        ensures { result ≡ [] }
    {
        FrameList {
            nodes: Vec::new(alloc),
        }
    }

    /// The frame of a query alone.
    pub fn of_query(alloc: Global, query: &Tuple) -> Result<FrameList, AllocError>
        ensures { IfOk result (λ r. r ≡ query_frame (canonical_tuple query.now) ∷ []) }
    {
        let tuple = canonical_tuple(alloc, query)?;
        let frame = Frame {
            box_no: 0,
            depth: 0,
            clause: 0,
            tuple,
            done: 0,
            point: 0,
        };
        let node = node_of(alloc, frame)?;
        let mut nodes = Vec::new(alloc);
        nodes.push(node)?;
        Ok(FrameList { nodes })
    }

    /// The first frame in front of these, under the substitution.
    pub fn applied(&self, alloc: Global, first: &Frame, s: &Subst) -> Result<FrameList, AllocError>
        ensures { IfOk result (λ r. r ≡ apply_frames (term_for s.now) (first.now ∷ self.now)) }
    {
        let front = moved_node(alloc, first, s)?;
        let mut nodes = Vec::new(alloc);
        nodes.push(front)?;
        'nodes: for node in &self.nodes {
            let moved = applied_node(alloc, node, s)?;
            nodes.push(moved)?;
        }
        Ok(FrameList { nodes })
    }

    /// The same frames. Their tuples are shared.
    pub fn copy(&self, alloc: Global) -> Result<FrameList, AllocError>
        ensures { IfOk result (λ r. r ≡ self.now) }
    {
        let mut nodes = Vec::new(alloc);
        'nodes: for node in &self.nodes {
            let same = copied_node(node)?;
            nodes.push(same)?;
        }
        Ok(FrameList { nodes })
    }

    /// The first frame in front of these. Their tuples are shared.
    pub fn with_front(&self, alloc: Global, first: Frame) -> Result<FrameList, AllocError>
        ensures { IfOk result (λ r. r ≡ first ∷ self.now) }
    {
        let front = node_of(alloc, first)?;
        let mut all = self.copy(alloc)?;
        all.nodes.insert(0, front)?;
        Ok(all)
    }

    /// The innermost frame's next goal.
    pub fn goal(&self) -> Option<&Flat>
        ensures { MatchOption result (next_goal self.now ≡ None)
            (λ a. next_goal self.now ≡ Some a.now) }
    {
        match self.nodes.as_slice() {
            [] => None,
            [first, ..] => goal_of(first),
        }
    }

    /// What the innermost frame does next, if the next box has this number.
    pub fn look(&self, alloc: Global, box_no: u32) -> Result<Look, AllocError>
        requires { MayCall self.now }
        ensures { IfOk result (λ l. l ≡ look_of self.now box_no) }
    {
        match self.nodes.as_slice() {
            [] => Ok(Look::Nothing),
            [first, others @ ..] => match goal_of(first) {
                Some(goal) => {
                    let g = called(alloc, first, goal, box_no)?;
                    Ok(Look::Goal(g))
                }
                None => look_over(alloc, first, others),
            },
        }
    }

    /// The innermost frame's head in its box, and its newest point.
    pub fn exited(&self, alloc: Global) -> Result<(Called, u32), AllocError>
        requires { 0 < length self.now }
        ensures { IfOk result (λ e. Some e ≡ exit_in self.now) }
    {
        match self.nodes.as_slice() {
            [] => unreachable!(),
            [first, others @ ..] => {
                let g = left(alloc, first, others)?;
                Ok((g, first.point))
            }
        }
    }

    /// Whether the innermost frame's instance is too large.
    pub fn is_large(&self) -> bool
        ensures { result ≡ is_large_of self.now }
    {
        match self.nodes.as_slice() {
            [] => false,
            [first, ..] => is_large(&first.tuple),
        }
    }

    /// The innermost frame's box and newest point.
    pub fn newest(&self) -> Option<(u32, u32)>
        ensures { result ≡ newest_of self.now }
    {
        match self.nodes.as_slice() {
            [] => None,
            [first, ..] => Some((first.box_no, first.point)),
        }
    }

    /// The innermost frame as a point.
    pub fn point(&self, alloc: Global, before: Option<Step>) -> Result<Point, AllocError>
        requires { 0 < length self.now }
        ensures { IfOk result (λ p. Some p ≡ point_in self.now before) }
    {
        let first = &self.nodes[0];
        let tuple = canonical_tuple(alloc, &first.tuple)?;
        Ok(Point {
            owner: first.box_no,
            clause: first.clause,
            done: first.done,
            tuple,
            before,
        })
    }

    /// Leaves the innermost frame.
    pub fn leave(&mut self)
        ensures { self.new ≡ outer self.old }
    {
        if self.nodes.len() > 0 {
            let _ = self.nodes.remove(0);
        }
    }

    /// One more goal of the innermost frame is solved, at a new point.
    pub fn take_over(&mut self, point: u32)
        requires { Takes self.old }
        ensures { self.new ≡ handed_all self.old point }
    {
        if self.nodes.len() > 0 {
            let first = &mut self.nodes[0];
            first.done += 1;
            first.point = point;
        }
    }
}
