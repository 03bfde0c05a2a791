//! The names and the operators by which a row's terms are read and written.

use apd_causes::Read;
use apd_ops::Ops;
use apd_term::{NameId, Names};
use std::alloc::{AllocError, Global};
use std::boxed::Box;

/// More names than a row brings; fewer than that are there when a text is read.
pub const MOST_ROW_NAMES: usize = 1_000_000;

/// The names and the operators by which terms are read and written.
#[derive(Drop)]
pub struct Scene {
    pub names: Names,
    pub ops: Ops,
}

impl Scene {
    /// The standard names and operators.
    pub fn new(alloc: Global) -> Result<Box<Scene>, AllocError> {
        let names = Names::standard(alloc)?;
        match Ops::standard(alloc) {
            Ok(ops) => Ok(Box::new(alloc, Scene { names, ops })?),
            Err(fault) => {
                // Dropped by calls, here and below: else each part is a step to check.
                drop(names);
                Err(fault)
            }
        }
    }

    /// The clause that a text is, with its end or without.
    pub fn read(&mut self, alloc: Global, text: &str) -> Option<Read> {
        let ended = format!(in alloc; "{text} .").ok()?;
        let first = self.first(alloc, ended.as_str().as_bytes());
        drop(ended);
        match first {
            Ok(first) => Some(first.read),
            Err(_) => None,
        }
    }

    /// The name of a text. An error also where there are too many names.
    pub fn name(&mut self, text: &str) -> Result<NameId, AllocError> {
        if self.names.count() > MOST_ROW_NAMES {
            return Err(AllocError);
        }
        self.names.intern(text.as_bytes())
    }
}
