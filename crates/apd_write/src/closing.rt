//! What stands behind a term.

ghost use Rattle.std.specs.Prelude.{◌≡◌, ◌++◌, [], ◌∷◌, List, IfOk, OnOk};
ghost use Rattle.apd_ops.specs.Table.{Table};
ghost use Rattle.apd_term.specs.Names.{text_of_name};
ghost use Rattle.apd_write.specs.NameTexts.{name_text};
ghost use Rattle.apd_write.specs.Pending.{AddsClosing, Leaves, with_arguments};
ghost use Rattle.apd_write.specs.Writing.{between};
ghost use Rattle.apd_write.specs.declared.pending.PendingFrame.{PendingFrame};
ghost use Rattle.apd_write.specs.declared.pending.PendingFrame.TheVariants as pushed;

use crate::names::put_name;
use crate::pending::{PendingFrame, TermPlace};
use crate::sheet::Sheet;
use apd_term::NameId;
use apd_term::names::Names;
use apd_term::standard::COMMA;
use std::alloc::AllocError;

/// Writes an infix operator between its operands: a space on each side, but none before the comma.
#[inline(never)]
fn write_infix(names: &Names, name: NameId, out: &mut Sheet) -> Result<(), AllocError>
    ensures { OnOk result (out.new ≡ out.old ++ between name
        (name_text (text_of_name names.now name))) }
{
    if name == COMMA {
        return out.extend(b", ");
    }
    out.push(b' ')?;
    put_name(names.text(name), out)?;
    out.push(b' ')
}

/// Writes what a frame has behind the term before the next one, and tells the place of that, where
/// there is one. It pushes no frame: an argument's place has what stands behind it.
#[inline(always)]
fn leave(
    names: &Names,
    frame: PendingFrame,
    out: &mut Sheet,
) -> Result<Option<TermPlace>, AllocError>
    ensures { IfOk result (λ next. (ops : Table) (frames : List PendingFrame) →
        Leaves ops names.now frame frames frames out.old out.new next) }
{
    match frame {
        PendingFrame::Arguments(left) if left > 0 => {
            out.push(b',')?;
            return Ok(Some(TermPlace::Argument(left - 1)));
        }
        PendingFrame::Arguments(_) | PendingFrame::ParenthesisEnd => out.push(b')')?,
        PendingFrame::ListEnd => out.push(b']')?,
        PendingFrame::CurlyEnd => out.push(b'}')?,
        PendingFrame::Rest => return Ok(Some(TermPlace::Rest)),
        PendingFrame::Right { name, max } => {
            write_infix(names, name, out)?;
            return Ok(Some(TermPlace::Right(max)));
        }
    }
    Ok(None)
}

/// Closes frame by frame what a term ends, and tells the place of the next term, where there is
/// one.
#[inline(always)]
fn close_frames(
    names: &Names,
    frames: &mut Vec<PendingFrame>,
    out: &mut Sheet,
) -> Result<Option<TermPlace>, AllocError>
    ensures { IfOk result (λ next. (ops : Table) →
        AddsClosing ops names.now frames.old.items frames.new.items out.old out.new next) }
{
    'closing: while let Some(frame) = frames.pop() {
        if let Some(place) = leave(names, frame, out)? {
            return Ok(Some(place));
        }
    }
    Ok(None)
}

/// Closes an argument that has so many further ones behind it, and what that ends, and tells the
/// place of the next term, where there is one.
#[inline(always)]
fn close_argument(
    names: &Names,
    left: u8,
    frames: &mut Vec<PendingFrame>,
    out: &mut Sheet,
) -> Result<Option<TermPlace>, AllocError>
    ensures { IfOk result (λ next. (ops : Table) → AddsClosing ops names.now
        (frames.old.items ++ pushed.Arguments left ∷ []) frames.new.items out.old out.new next) }
{
    if left > 0 {
        out.push(b',')?;
        return Ok(Some(TermPlace::Argument(left - 1)));
    }
    out.push(b')')?;
    close_frames(names, frames, out)
}

/// Closes what a term in its place ends, and tells the place of the next term, where there is one.
#[inline(always)]
pub(crate) fn close(
    names: &Names,
    place: TermPlace,
    frames: &mut Vec<PendingFrame>,
    out: &mut Sheet,
) -> Result<Option<TermPlace>, AllocError>
    ensures { IfOk result (λ next. (ops : Table) → AddsClosing ops names.now
        (with_arguments place frames.old.items) frames.new.items out.old out.new next) }
{
    match place {
        TermPlace::Argument(left) => close_argument(names, left, frames, out),
        _ => close_frames(names, frames, out),
    }
}
