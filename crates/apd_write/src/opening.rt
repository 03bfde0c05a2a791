//! What stands before the arguments of a compound.

ghost use Rattle.std.specs.Prelude.{◌≡◌, ◌<◌, ◌-◌, ◌++◌, [], ◌∷◌, codes, false, List, IfOk, OnOk};
ghost use Rattle.apd_ops.specs.Operators.{left_of, right_of};
ghost use Rattle.apd_term.specs.Names.{text_of_name};
ghost use Rattle.apd_write.specs.NameTexts.{function_text, name_text};
ghost use Rattle.apd_write.specs.Pending.{Opens, Puts, closing_frames, opening_mark};
ghost use Rattle.apd_write.specs.Writing.{is_same_name};
ghost use Rattle.apd_write.specs.declared.pending.PendingFrame.{PendingFrame};
ghost use Rattle.apd_write.specs.declared.pending.TermPlace.TheVariants as places;
ghost use Rattle.apd_write.specs.declared.pending.PendingFrame.TheVariants as pushed;

use crate::names::{put_name, write_function_name};
use crate::pending::{PendingFrame, TermPlace};
use crate::sheet::Sheet;
use apd_ops::{ARGUMENT_PRIORITY, MOST_PRIORITY, Op, Ops};
use apd_term::NameId;
use apd_term::names::Names;
use apd_term::standard::{CELL, CURLY};
use std::alloc::AllocError;

/// Opens a parenthesis where the priority is above the place's greatest.
fn open_fitted(
    priority: u16,
    max: u16,
    frames: &mut Vec<PendingFrame>,
    out: &mut Sheet,
) -> Result<(), AllocError>
    ensures text { OnOk result (out.new ≡ out.old ++ opening_mark priority max) }
    ensures frames { OnOk result (frames.new.items ≡
        frames.old.items ++ closing_frames priority max) }
{
    if priority > max {
        out.push(b'(')?;
        frames.push(PendingFrame::ParenthesisEnd)?;
    }
    Ok(())
}

/// Functional notation: the name and the opening parenthesis.
#[inline(always)]
fn open_function(
    names: &Names,
    name: NameId,
    count: u8,
    out: &mut Sheet,
) -> Result<TermPlace, AllocError>
    requires { 0 < count }
    ensures { IfOk result (λ next. (frames : List PendingFrame) →
        Puts (function_text (text_of_name names.now name) ++ codes "(")
        (pushed.Arguments (count - 1) ∷ [])
        (places.Whole ARGUMENT_PRIORITY) frames frames out.old out.new next) }
{
    write_function_name(names.text(name), out)?;
    out.push(b'(')?;
    Ok(TermPlace::Argument(count - 1))
}

/// A prefix operator before its operand.
#[inline(never)]
fn open_prefix(
    names: &Names,
    operator: Op,
    max: u16,
    frames: &mut Vec<PendingFrame>,
    out: &mut Sheet,
) -> Result<TermPlace, AllocError>
    ensures { IfOk result (λ next. Puts (opening_mark operator.priority max ++
        (name_text (text_of_name names.now operator.name) ++ codes " "))
        (closing_frames operator.priority max)
        (places.Left (right_of operator)) frames.old.items frames.new.items out.old out.new next) }
{
    open_fitted(operator.priority, max, frames, out)?;
    put_name(names.text(operator.name), out)?;
    out.push(b' ')?;
    Ok(TermPlace::Left(operator.right()))
}

/// An infix operator, whose left operand comes first.
#[inline(never)]
fn open_infix(
    operator: Op,
    max: u16,
    frames: &mut Vec<PendingFrame>,
    out: &mut Sheet,
) -> Result<TermPlace, AllocError>
    ensures { IfOk result (λ next. Puts (opening_mark operator.priority max)
        (closing_frames operator.priority max ++ pushed.Right operator.name
        (right_of operator) ∷ []) (places.Left
        (left_of operator)) frames.old.items frames.new.items out.old out.new next) }
{
    open_fitted(operator.priority, max, frames, out)?;
    frames.push(PendingFrame::Right {
        name: operator.name,
        max: operator.right(),
    })?;
    Ok(TermPlace::Left(operator.left()))
}

/// A list, from its first element on.
#[inline(always)]
fn open_list(frames: &mut Vec<PendingFrame>, out: &mut Sheet) -> Result<TermPlace, AllocError>
    ensures { IfOk result (λ next. Puts (codes "[") (pushed.Rest ∷ [])
        (places.Whole ARGUMENT_PRIORITY) frames.old.items frames.new.items out.old out.new next) }
{
    out.push(b'[')?;
    frames.push(PendingFrame::Rest)?;
    Ok(TermPlace::Whole(ARGUMENT_PRIORITY))
}

/// A list's next element.
#[inline(always)]
fn open_further(frames: &mut Vec<PendingFrame>, out: &mut Sheet) -> Result<TermPlace, AllocError>
    ensures { IfOk result (λ next. Puts (codes ",") (pushed.Rest ∷ [])
        (places.Whole ARGUMENT_PRIORITY) frames.old.items frames.new.items out.old out.new next) }
{
    out.push(b',')?;
    frames.push(PendingFrame::Rest)?;
    Ok(TermPlace::Whole(ARGUMENT_PRIORITY))
}

/// A term in braces.
#[inline(never)]
fn open_curly(frames: &mut Vec<PendingFrame>, out: &mut Sheet) -> Result<TermPlace, AllocError>
    ensures { IfOk result (λ next. Puts (codes "{") (pushed.CurlyEnd ∷ [])
        (places.Whole MOST_PRIORITY) frames.old.items frames.new.items out.old out.new next) }
{
    out.push(b'{')?;
    frames.push(PendingFrame::CurlyEnd)?;
    Ok(TermPlace::Whole(MOST_PRIORITY))
}

/// What stands before the first argument of a compound in a place for this priority.
#[inline(always)]
fn open_compound(
    ops: &Ops,
    names: &Names,
    name: NameId,
    count: u8,
    max: u16,
    frames: &mut Vec<PendingFrame>,
    out: &mut Sheet,
) -> Result<TermPlace, AllocError>
    requires { 0 < count }
    ensures { IfOk result (λ next. Opens ops.now names.now name count
        (places.Whole max) frames.old.items frames.new.items out.old out.new next) }
{
    match count {
        1 => match ops.prefix(name) {
            Some((priority, kind)) => {
                let operator = Op {
                    name,
                    priority,
                    kind,
                };
                return open_prefix(names, operator, max, frames, out);
            }
            None if name == CURLY => return open_curly(frames, out),
            None => {}
        },
        2 if name == CELL => return open_list(frames, out),
        2 => {
            if let Some((priority, kind)) = ops.infix(name) {
                let operator = Op {
                    name,
                    priority,
                    kind,
                };
                return open_infix(operator, max, frames, out);
            }
        }
        _ => {}
    }
    open_function(names, name, count, out)
}

/// The same as the rest of a list, behind the bar. It isn't inlined: few lists have such a rest.
#[inline(never)]
fn open_tail(
    ops: &Ops,
    names: &Names,
    name: NameId,
    count: u8,
    frames: &mut Vec<PendingFrame>,
    out: &mut Sheet,
) -> Result<TermPlace, AllocError>
    requires count { 0 < count }
    requires tail { count ≡ 2 → is_same_name name CELL ≡ false }
    ensures { IfOk result (λ next. Opens ops.now names.now name count
        places.Rest frames.old.items frames.new.items out.old out.new next) }
{
    out.push(b'|')?;
    frames.push(PendingFrame::ListEnd)?;
    open_compound(ops, names, name, count, ARGUMENT_PRIORITY, frames, out)
}

/// What stands before the first argument of a compound in any place. It isn't inlined: with it what writes a symbol would
/// be larger than what the compiler inlines.
#[inline(never)]
pub(crate) fn open(
    ops: &Ops,
    names: &Names,
    name: NameId,
    count: u8,
    place: TermPlace,
    frames: &mut Vec<PendingFrame>,
    out: &mut Sheet,
) -> Result<TermPlace, AllocError>
    requires { 0 < count }
    ensures { IfOk result
        (λ next. Opens ops.now names.now name count place frames.old.items frames.new.items out.old out.new next) }
{
    match place {
        TermPlace::Argument(_) => {
            open_compound(ops, names, name, count, ARGUMENT_PRIORITY, frames, out)
        }
        TermPlace::Whole(max) | TermPlace::Left(max) | TermPlace::Right(max) => {
            open_compound(ops, names, name, count, max, frames, out)
        }
        TermPlace::Rest if name == CELL && count == 2 => open_further(frames, out),
        TermPlace::Rest => open_tail(ops, names, name, count, frames, out),
    }
}
