//! Points with their terms as places.

use apd_ports::Step;
use apd_tuples::spots::Numbered;

/// A head and the goals behind it, among the terms of all tuples.
#[derive(Clone, Copy)]
pub struct Span {
    pub from: u32,
    pub goals: u32,
}

/// Where a tuple is: it was written, or it is a kept one.
#[derive(Clone, Copy)]
pub enum TuplePlace {
    Written(Span),
    Kept(Numbered),
}

/// A point.
#[derive(Clone, Copy)]
pub struct KeptPoint {
    pub owner: u32,
    pub clause: u32,
    pub done: u8,
    pub tuple: TuplePlace,
    pub before: Option<Step>,
}
