//! The operators of the standard.

ghost use Rattle.std.specs.Prelude.{◌≡◌, IfOk};
ghost use Rattle.apd_ops.specs.Standard.{standard_prefixes, standard_infixes};

use crate::op::OpKind;
use apd_term::standard::{
    AFTER, AFTER_EQUAL, ARROW, BEFORE, BEFORE_EQUAL, BIT_AND, BIT_NOT, BIT_OR, CARET, COMMA,
    DIFFERENT, DISCONTIGUOUS, DIVIDE, DYNAMIC, EQUAL, GRAMMAR_ARROW, GREATER, GREATER_EQUAL,
    IDENTICAL, INITIALIZATION, IS, LESS, LESS_EQUAL, MINUS, MOD, MULTIFILE, NECK, NOT_IDENTICAL,
    NOT_PROVABLE, NOT_UNIFIABLE, PLUS, POWER, QUERY, QUOTIENT, REM, SEMICOLON, SHIFT_LEFT,
    SHIFT_RIGHT, TIMES, UNIFY, UNIV,
};
use indexmap::IndexMap;
use std::alloc::{AllocError, Global};

const PREFIXES: [(u32, (u16, OpKind)); 9] = [
    (NECK.0, (1200, OpKind::Fx)),
    (QUERY.0, (1200, OpKind::Fx)),
    (DYNAMIC.0, (1150, OpKind::Fx)),
    (DISCONTIGUOUS.0, (1150, OpKind::Fx)),
    (MULTIFILE.0, (1150, OpKind::Fx)),
    (INITIALIZATION.0, (1150, OpKind::Fx)),
    (NOT_PROVABLE.0, (900, OpKind::Fy)),
    (MINUS.0, (200, OpKind::Fy)),
    (BIT_NOT.0, (200, OpKind::Fy)),
];

const INFIXES: [(u32, (u16, OpKind)); 34] = [
    (NECK.0, (1200, OpKind::Xfx)),
    (GRAMMAR_ARROW.0, (1200, OpKind::Xfx)),
    (SEMICOLON.0, (1100, OpKind::Xfy)),
    (ARROW.0, (1050, OpKind::Xfy)),
    (COMMA.0, (1000, OpKind::Xfy)),
    (UNIFY.0, (700, OpKind::Xfx)),
    (NOT_UNIFIABLE.0, (700, OpKind::Xfx)),
    (IDENTICAL.0, (700, OpKind::Xfx)),
    (NOT_IDENTICAL.0, (700, OpKind::Xfx)),
    (BEFORE.0, (700, OpKind::Xfx)),
    (BEFORE_EQUAL.0, (700, OpKind::Xfx)),
    (AFTER.0, (700, OpKind::Xfx)),
    (AFTER_EQUAL.0, (700, OpKind::Xfx)),
    (UNIV.0, (700, OpKind::Xfx)),
    (IS.0, (700, OpKind::Xfx)),
    (EQUAL.0, (700, OpKind::Xfx)),
    (DIFFERENT.0, (700, OpKind::Xfx)),
    (LESS.0, (700, OpKind::Xfx)),
    (LESS_EQUAL.0, (700, OpKind::Xfx)),
    (GREATER.0, (700, OpKind::Xfx)),
    (GREATER_EQUAL.0, (700, OpKind::Xfx)),
    (PLUS.0, (500, OpKind::Yfx)),
    (MINUS.0, (500, OpKind::Yfx)),
    (BIT_AND.0, (500, OpKind::Yfx)),
    (BIT_OR.0, (500, OpKind::Yfx)),
    (TIMES.0, (400, OpKind::Yfx)),
    (DIVIDE.0, (400, OpKind::Yfx)),
    (QUOTIENT.0, (400, OpKind::Yfx)),
    (REM.0, (400, OpKind::Yfx)),
    (MOD.0, (400, OpKind::Yfx)),
    (SHIFT_LEFT.0, (400, OpKind::Yfx)),
    (SHIFT_RIGHT.0, (400, OpKind::Yfx)),
    (POWER.0, (200, OpKind::Xfx)),
    (CARET.0, (200, OpKind::Xfy)),
];

/// The standard prefix operators.
pub(crate) fn prefixes(alloc: Global) -> Result<IndexMap<u32, (u16, OpKind)>, AllocError>
    ensures { IfOk result (λ m. m.entries ≡ standard_prefixes) }
{
    IndexMap::from_array(alloc, PREFIXES)
}

/// The standard infix operators.
pub(crate) fn infixes(alloc: Global) -> Result<IndexMap<u32, (u16, OpKind)>, AllocError>
    ensures { IfOk result (λ m. m.entries ≡ standard_infixes) }
{
    IndexMap::from_array(alloc, INFIXES)
}
