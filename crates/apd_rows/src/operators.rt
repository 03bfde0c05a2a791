//! Operators that rows name, and their definitions.

use crate::scene::Scene;
use apd_ops::{OpFault, OpKind};

fn kind_of(word: &str) -> Option<OpKind> {
    match word {
        "xfx" => Some(OpKind::Xfx),
        "xfy" => Some(OpKind::Xfy),
        "yfx" => Some(OpKind::Yfx),
        "fx" => Some(OpKind::Fx),
        "fy" => Some(OpKind::Fy),
        _ => None,
    }
}

/// The priority, the kind and the name of a definition.
fn definition_of(line: &str) -> Option<(i64, OpKind, &str)> {
    let (priority, rest) = line.split_once(' ')?;
    let (kind, name) = rest.split_once(' ')?;
    Some((priority.parse::<i64>().ok()?, kind_of(kind)?, name))
}

/// The operators that a word names, as definitions that change the standard ones, a line each.
fn changes(operators: &str) -> &'static str {
    match operators {
        "quoted" => "700 xfx Is bigger\n900 fy It's",
        "other" => "0 fy -\n700 xfx +\n200 xfy true\n300 yfx \\+",
        "changed" => {
            "700 xfx Is bigger\n900 fy It's\n200 xfy \\+\n300 xfx dynamic\n150 yfx yfx\n150 fx fx\n\
             100 fy !\n600 xfx \n1 fy .\n1200 xfy =\n1150 yfx mod\n0 fy -"
        }
        _ => "",
    }
}

impl Scene {
    /// Makes the changes that a word names: `quoted` has two names that are quoted; `other` takes the prefix operator `-`
    /// away and has three infix operators of other priorities; `changed` has those of `quoted`, a name with two meanings,
    /// the least and the greatest priority, other priorities, and takes a meaning away. Any other word names none.
    pub fn change(&mut self, operators: &str) -> Option<()> {
        for line in changes(operators).lines() {
            self.define(line).ok()?;
        }
        Some(())
    }

    /// Defines an operator as the line says: `700 xfx is`. Another line has a bad priority.
    pub fn define(&mut self, line: &str) -> Result<(), OpFault> {
        let Some((priority, kind, text)) = definition_of(line) else {
            return Err(OpFault::BadPriority);
        };
        let name = self.name(text)?;
        self.ops.define(priority, kind, name)
    }
}
