//! Terms, symbol by symbol.

ghost use Rattle.std.specs.Prelude.{◌≡◌, ◌++◌, List, ◌∷◌, ℕ, OnOk, OnErr, IfOk};
ghost use Rattle.apd_term.specs.Term.{IsTerms, IsWhole, read_all, term_of};
ghost use Rattle.apd_term.specs.declared.term.Sym.{Sym};
ghost use Rattle.apd_write.specs.Pending.{Expects, Stands, with_arguments};
ghost use Rattle.apd_write.specs.Writing.{written};

use crate::closing::close;
use crate::leaves::write_leaf;
use crate::opening::open;
use crate::pending::{PendingFrame, TermPlace};
use crate::sheet::Sheet;
use apd_base::Text;
use apd_ops::Ops;
use apd_term::names::Names;
use apd_term::{Flat, Sym};
use std::alloc::{AllocError, Global};

/// Pushes what stands behind an argument, since a compound is written in its place.
#[inline(always)]
fn push_arguments(place: TermPlace, frames: &mut Vec<PendingFrame>) -> Result<(), AllocError>
    ensures { OnOk result (frames.new.items ≡ with_arguments place frames.old.items) }
{
    if let TermPlace::Argument(left) = place {
        frames.push(PendingFrame::Arguments(left))?;
    }
    Ok(())
}

/// Writes what a symbol stands for in its place, and what stands behind it up to the place of the next symbol.
#[inline(always)]
fn write_next(
    ops: &Ops,
    names: &Names,
    symbol: Sym,
    place: TermPlace,
    frames: &mut Vec<PendingFrame>,
    out: &mut Sheet,
) -> Result<Option<TermPlace>, AllocError>
    ensures { IfOk result (λ next. (whole : List ℕ) (rest : List Sym) → IsTerms (symbol ∷ rest) →
        Expects ops.now names.now whole frames.old.items out.old place (read_all (symbol ∷ rest)) →
        Stands ops.now names.now whole frames.new.items out.new next (read_all rest)) }
{
    if let Sym::Fun(name, count) = symbol
        && count > 0
    {
        push_arguments(place, frames)?;
        return Ok(Some(open(ops, names, name, count, place, frames, out)?));
    }
    write_leaf(ops, names, symbol, place, out)?;
    close(names, place, frames, out)
}

/// Writes the term that these symbols spell, for a place of a priority. What stands in the frames doesn't matter.
#[inline(always)]
fn write_all(
    ops: &Ops,
    names: &Names,
    symbols: &[Sym],
    max: u16,
    frames: &mut Vec<PendingFrame>,
    out: &mut Sheet,
) -> Result<(), AllocError>
    requires { IsWhole symbols.now }
    ensures { OnOk result
        (out.new ≡ out.old ++ written ops.now names.now (term_of symbols.now) max) }
{
    frames.clear();
    let mut place = TermPlace::Whole(max);
    'symbols: for symbol in symbols {
        match write_next(ops, names, *symbol, place, frames, out)? {
            Some(next) => place = next,
            None => return Ok(()),
        }
    }
    Ok(())
}

/// What writes terms one after another. It keeps the room that it takes for what is still to be written, so it takes it once.
#[derive(Drop)]
pub struct Pen {
    frames: Vec<PendingFrame>,
}

impl Pen {
    /// A pen that has written nothing.
    pub fn new(alloc: Global) -> Pen {
        Pen {
            frames: Vec::new(alloc),
        }
    }

    /// Writes a term for a place where its priority may be at most `max`, by a table of operators. After want of memory a
    /// part may stand there.
    #[inline(always)]
    pub fn write(
        &mut self,
        ops: &Ops,
        names: &Names,
        term: &Flat,
        max: u16,
        out: &mut Sheet,
    ) -> Result<(), AllocError>
        ensures { OnOk result (out.new ≡ out.old ++ written ops.now names.now term.now max) }
    {
        write_all(ops, names, term.symbols(), max, &mut self.frames, out)
    }
}

/// The text of a term for a place of a priority.
fn text_of(
    alloc: Global,
    ops: &Ops,
    names: &Names,
    term: &Flat,
    max: u16,
) -> Result<Sheet, AllocError>
    ensures { IfOk result (λ text. text ≡ written ops.now names.now term.now max) }
{
    let mut text = Sheet::new(alloc);
    let mut pen = Pen::new(alloc);
    pen.write(ops, names, term, max, &mut text)?;
    Ok(text)
}

/// Writes a term for a place where its priority may be at most `max`, by a table of operators. After want of memory the text
/// is as it was.
pub fn write_term(
    alloc: Global,
    ops: &Ops,
    names: &Names,
    term: &Flat,
    max: u16,
    out: &mut Text,
) -> Result<(), AllocError>
    ensures text { OnOk result (out.new ≡ out.old ++ written ops.now names.now term.now max) }
    ensures same { OnErr result (out.new ≡ out.old) }
{
    let text = text_of(alloc, ops, names, term, max)?;
    out.extend(text.bytes())
}
