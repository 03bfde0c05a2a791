//! Marks of symbols: numbers of 64 bits, in which each symbol's bits are mixed with those before it.

ghost use Rattle.std.specs.Prelude.{◌≡◌};
ghost use Rattle.apd_marks.specs.Mixing.{bits_of, folded, kind_of, mixed, shuffled, with_term};

use apd_term::{Flat, Sym};

/// The numbers that bits are multiplied by while they are mixed.
const FIRST_SPREAD: u64 = 0xff51_afd7_ed55_8ccd;

const LAST_SPREAD: u64 = 0xc4ce_b9fe_1a85_ec53;

/// What a symbol is: a variable, an integer, or a name with so many arguments.
fn kind_of(symbol: Sym) -> u64
    ensures { result ≡ kind_of symbol }
{
    match symbol {
        Sym::Var(_) => 1,
        Sym::Int(_) => 2,
        Sym::Fun(_, arity) => 3 + arity as u64,
    }
}

/// The symbol's 64 bits among those of its kind.
fn bits_of(symbol: Sym) -> u64
    ensures { result ≡ bits_of symbol }
{
    match symbol {
        Sym::Var(v) => v,
        Sym::Int(i) => i.cast_unsigned(),
        Sym::Fun(name, _) => name.0 as u64,
    }
}

/// The bits with their upper ones joined to the lower.
fn folded(bits: u64) -> u64
    ensures { result ≡ folded bits }
{
    bits ^ (bits >> 33)
}

/// The bits mixed as by the last step of MurmurHash3: fmix64, by Austin Appleby, in the public domain.
fn shuffled(bits: u64) -> u64
    ensures { result ≡ shuffled bits }
{
    let once = folded(bits).wrapping_mul(FIRST_SPREAD);
    let twice = folded(once).wrapping_mul(LAST_SPREAD);
    folded(twice)
}

/// A mark with one more symbol.
#[tactic(auto, unfolding(crate::specs::Mixing::mixed))]
pub fn mixed(mark: u64, symbol: Sym) -> u64
    ensures { result ≡ mixed mark symbol }
{
    let bits = bits_of(symbol);
    shuffled(mark.wrapping_add(kind_of(symbol)) ^ bits).wrapping_add(bits)
}

/// A mark with a term's symbols.
pub fn with_term(mark: u64, term: &Flat) -> u64
    ensures { result ≡ with_term mark term.now }
{
    term.symbols()
        .iter()
        .fold(mark, |mark, symbol| mixed(mark, *symbol))
}
