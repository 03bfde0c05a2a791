//! The numbers of a term are those that symbols have.

ghost use Rattle.std.specs.List.{AllByRecursion};
ghost use Rattle.apd_reading_back.specs.Law.{IsInRange};
ghost use Rattle.apd_kept.specs.Ranges.{IsSymbol};

use apd_term::{Flat, Sym};

/// So are those of a symbol.
fn is_symbol(symbol: Sym)
    ensures { IsSymbol symbol }
{
    match symbol {
        Sym::Var(number) => {
            let _number = number;
        }
        Sym::Int(value) => {
            let _value = value;
        }
        Sym::Fun(_, arity) => {
            let _arity = arity;
        }
    }
}

/// And of each.
fn are_symbols(symbols: &[Sym])
    ensures { AllByRecursion IsSymbol symbols.now }
{
    'symbols: for i in 0..symbols.len() {
        is_symbol(symbols[i]);
    }
}

/// The term's variables and integers have 64 bits, and it has at most 255 arguments anywhere.
pub(crate) fn is_in_range(term: &Flat)
    ensures { IsInRange term.now }
{
    are_symbols(term.symbols());
}
