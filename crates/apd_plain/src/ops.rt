//! The table of operators as a list of operators, and its change by a definition in the plainest way.

use apd_ops::{MOST_PRIORITY, Op, OpFault, OpKind};
use apd_term::NameId;
use apd_term::standard::{BAR, COMMA, CURLY, NIL};
use std::alloc::{AllocError, Global};

fn is_prefix(kind: OpKind) -> bool {
    kind == OpKind::Fx || kind == OpKind::Fy
}

/// What the name means before its operand, or between two operands.
pub fn meaning(table: &[Op], name: NameId, prefix: bool) -> Option<(u16, OpKind)> {
    for o in table {
        if o.name == name && is_prefix(o.kind) == prefix {
            return Some((o.priority, o.kind));
        }
    }
    None
}

/// Whether the operators have one priority, and the first may group to the right and the second to the left.
fn clash(o: &Op, q: &Op) -> bool {
    o.priority == q.priority
        && (o.kind == OpKind::Xfy || o.kind == OpKind::Fy)
        && q.kind == OpKind::Yfx
}

fn has_clash(table: &[Op]) -> bool {
    for o in table {
        for q in table {
            if clash(o, q) {
                return true;
            }
        }
    }
    false
}

/// The table with the operator in place of the one that the name is in this place.
fn replaced(alloc: Global, table: &[Op], new: Op) -> Result<Vec<Op>, AllocError> {
    let mut out = Vec::new(alloc);
    for o in table {
        if o.name != new.name || is_prefix(o.kind) != is_prefix(new.kind) {
            out.push(*o)?;
        }
    }
    if new.priority > 0 {
        out.push(new)?;
    }
    Ok(out)
}

/// The table after a definition, or the first cause why there is none.
pub fn plain_define(
    alloc: Global,
    table: &[Op],
    priority: i64,
    kind: OpKind,
    name: NameId,
) -> Result<Vec<Op>, OpFault> {
    if priority < 0 || priority > MOST_PRIORITY as i64 {
        return Err(OpFault::BadPriority);
    }
    if name == COMMA || name == BAR || name == NIL || name == CURLY {
        return Err(OpFault::Fixed);
    }
    let priority = priority as u16;
    let new = Op {
        name,
        priority,
        kind,
    };
    let after = replaced(alloc, table, new)?;
    if has_clash(&after) {
        return Err(OpFault::Clash);
    }
    Ok(after)
}
