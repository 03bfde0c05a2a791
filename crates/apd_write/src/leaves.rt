//! Symbols without arguments, in their places.

ghost use Rattle.std.specs.Prelude.{◌≡◌, ◌++◌, OnOk, codes};
ghost use Rattle.apd_write.specs.Pending.{is_negative_symbol, is_nil_symbol, is_operator_symbol, leaf_in, leaf_rest, leaf_text};
ghost use Rattle.apd_write.specs.Writing.{in_parentheses};

use crate::names::put_name;
use crate::numbers::{write_integer, write_number};
use crate::pending::TermPlace;
use crate::sheet::Sheet;
use apd_ops::Ops;
use apd_term::Sym;
use apd_term::names::Names;
use apd_term::standard::NIL;
use std::alloc::AllocError;

/// Whether the symbol is an atom that is an operator.
fn is_operator(ops: &Ops, symbol: Sym) -> bool
    ensures { result ≡ is_operator_symbol ops.now symbol }
{
    match symbol {
        Sym::Fun(name, _) => ops.prefix(name).is_some() || ops.infix(name).is_some(),
        Sym::Var(_) | Sym::Int(_) => false,
    }
}

fn is_negative(symbol: Sym) -> bool
    ensures { result ≡ is_negative_symbol symbol }
{
    match symbol {
        Sym::Int(i) => i < 0,
        Sym::Var(_) | Sym::Fun(_, _) => false,
    }
}

/// Writes a variable, an integer or a name.
#[inline(always)]
fn write_symbol(names: &Names, symbol: Sym, out: &mut Sheet) -> Result<(), AllocError>
    ensures { OnOk result (out.new ≡ out.old ++ leaf_text names.now symbol) }
{
    match symbol {
        Sym::Var(v) => {
            out.push(b'_')?;
            write_number(v, out)?;
        }
        Sym::Int(i) => write_integer(i, out)?,
        Sym::Fun(name, _) => put_name(names.text(name), out)?,
    }
    Ok(())
}

/// Writes a symbol without arguments in parentheses.
#[inline(never)]
fn write_enclosed(names: &Names, symbol: Sym, out: &mut Sheet) -> Result<(), AllocError>
    ensures { OnOk result (out.new ≡ out.old ++ in_parentheses (leaf_text names.now symbol)) }
{
    out.push(b'(')?;
    write_symbol(names, symbol, out)?;
    out.push(b')')?;
    Ok(())
}

fn is_nil(symbol: Sym) -> bool
    ensures { result ≡ is_nil_symbol symbol }
{
    match symbol {
        Sym::Fun(name, _) => name == NIL,
        Sym::Var(_) | Sym::Int(_) => false,
    }
}

/// Writes a symbol without arguments behind a list's bar, and the bracket that closes the list.
#[inline(never)]
fn write_tail(names: &Names, symbol: Sym, out: &mut Sheet) -> Result<(), AllocError>
    ensures { OnOk result (out.new ≡ out.old ++ codes "|" ++ leaf_text names.now symbol
        ++ codes "]") }
{
    out.push(b'|')?;
    write_symbol(names, symbol, out)?;
    out.push(b']')
}

/// Writes the end of a list whose rest is the symbol: what isn't `[]` stands behind the bar.
#[inline(always)]
fn write_rest(names: &Names, symbol: Sym, out: &mut Sheet) -> Result<(), AllocError>
    ensures { OnOk result (out.new ≡ out.old ++ leaf_rest names.now symbol) }
{
    if is_nil(symbol) {
        return out.push(b']');
    }
    write_tail(names, symbol, out)
}

/// Writes an operand without arguments: in parentheses where it is an operator or, on the left, a
/// negative integer. It serves other places too, so that its contract is that of `write_leaf`.
#[inline(never)]
fn write_operand(
    ops: &Ops,
    names: &Names,
    symbol: Sym,
    place: TermPlace,
    out: &mut Sheet,
) -> Result<(), AllocError>
    ensures { OnOk result (out.new ≡ out.old ++ leaf_in ops.now names.now place symbol) }
{
    match place {
        TermPlace::Left(_) if is_negative(symbol) => write_enclosed(names, symbol, out),
        TermPlace::Left(_) | TermPlace::Right(_) if is_operator(ops, symbol) => {
            write_enclosed(names, symbol, out)
        }
        TermPlace::Rest => write_rest(names, symbol, out),
        TermPlace::Argument(_) | TermPlace::Whole(_) | TermPlace::Left(_) | TermPlace::Right(_) =>
            write_symbol(names, symbol, out),
    }
}

/// Writes a symbol without arguments in its place. Few of them are operands, which are looked at
/// more closely.
#[inline(always)]
pub(crate) fn write_leaf(
    ops: &Ops,
    names: &Names,
    symbol: Sym,
    place: TermPlace,
    out: &mut Sheet,
) -> Result<(), AllocError>
    ensures { OnOk result (out.new ≡ out.old ++ leaf_in ops.now names.now place symbol) }
{
    match place {
        TermPlace::Argument(_) | TermPlace::Whole(_) => write_symbol(names, symbol, out),
        TermPlace::Rest => write_rest(names, symbol, out),
        TermPlace::Left(_) | TermPlace::Right(_) => write_operand(ops, names, symbol, place, out),
    }
}
