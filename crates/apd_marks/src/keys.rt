//! Keys: a term's symbols as what can stand in a set.

ghost use Rattle.std.specs.Prelude.{◌≡◌, IfOk};
ghost use Rattle.apd_marks.specs.Keys.{key, part_of};

use apd_term::{Flat, Sym};
use std::alloc::{AllocError, Global};

/// A part of a key: a symbol, or a size that stands for a term of which no other has it.
#[derive(Clone, Copy, PartialEq, Eq, Hash)]
pub enum KeyPart {
    Variable(u64),
    Integer(i64),
    Name(u32, u8),
    Size(u64),
}

/// The symbol as a part of a key.
fn part_of(symbol: Sym) -> KeyPart
    ensures { result ≡ part_of symbol }
{
    match symbol {
        Sym::Var(v) => KeyPart::Variable(v),
        Sym::Int(i) => KeyPart::Integer(i),
        Sym::Fun(name, arity) => KeyPart::Name(name.0, arity),
    }
}

/// The key of a term, which no other term has.
pub fn key_of(alloc: Global, term: &Flat) -> Result<Vec<KeyPart>, AllocError>
    ensures { IfOk result (λ k. k.items ≡ key term.now) }
{
    let mut parts = Vec::new(alloc);
    'symbols: for symbol in term.symbols() {
        parts.push(part_of(*symbol))?;
    }
    Ok(parts)
}
