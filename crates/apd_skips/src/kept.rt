//! An atom with the skips of its symbols: whether it is an instance of another takes steps in the symbols of that one, and at most one
//! comparison of subterms that differ. Equal subterms are compared only where digests meet by chance, or no place is found for them.

ghost use Rattle.std.specs.Prelude.{◌≡◌, ◌↔◌, ◌<◌, ◌≤◌, length, IfOk, IsTrue, MatchBool, OnOk};
ghost use Rattle.apd_term.specs.declared.term.Sym.TheVariants.{Var};
ghost use Rattle.apd_term.specs.Matching.{is_instance};
ghost use Rattle.apd_term.specs.MatchStep.{IsStep};
ghost use Rattle.apd_term.specs.Substitution.{IsInstance};
ghost use Rattle.apd_term.specs.Term.{IsWhole, spell};
ghost use Rattle.apd_skips.specs.Skips.{AreWithin, HasSkips, end_of, placed, subterm_at};

use crate::skips::{Skip, skips_of};
use apd_base::ListOf;
use apd_term::{Flat, Sym};
use indexmap::IndexMap;
use std::alloc::{AllocError, Global};
use std::marker::Model;

/// The symbols of the subterm at a place.
fn spelling(symbols: &[Sym], from: usize, end: usize) -> &[Sym]
    requires whole { IsWhole symbols.now }
    requires there { from < length symbols.now }
    requires within { end ≤ length symbols.now }
    requires end { end ≡ end_of symbols.now from }
    ensures { result.now ≡ spell (subterm_at symbols.now from) }
{
    &symbols[from..end]
}

/// Whether the subterms at two places are one. Their symbols are compared only where different places stand for them.
fn are_same(symbols: &[Sym], skips: &[Skip], one: usize, other: usize) -> bool
    requires whole { IsWhole symbols.now }
    requires skips { HasSkips symbols.now skips.now }
    requires one { one < length symbols.now }
    requires other { other < length symbols.now }
    ensures { IsTrue result ↔ (subterm_at symbols.now one ≡ subterm_at symbols.now other) }
{
    let left = skips[one];
    let right = skips[other];
    if left.equal == right.equal {
        return true;
    }
    spelling(symbols, one, left.end) == spelling(symbols, other, right.end)
}

/// A variable of the general term against the subterm at a place: the place behind it, or none.
fn pass_variable(
    firsts: &mut IndexMap<u64, usize>,
    v: u64,
    symbols: &[Sym],
    skips: &[Skip],
    from: usize,
) -> Result<Option<usize>, AllocError>
    requires whole { IsWhole symbols.now }
    requires skips { HasSkips symbols.now skips.now }
    requires there { from < length symbols.now }
    requires within { AreWithin firsts.old (length symbols.now) }
    ensures step { IfOk result (IsStep (Var v) symbols.now from (placed symbols.now firsts.old)
        (placed symbols.now firsts.new)) }
    ensures within { OnOk result (AreWithin firsts.new (length symbols.now)) }
{
    let end = skips[from].end;
    if let Some(first) = firsts.get(&v) {
        if are_same(symbols, skips, *first, from) {
            return Ok(Some(end));
        }
        return Ok(None);
    }
    firsts.insert(v, from)?;
    Ok(Some(end))
}

/// One symbol of the general term against the special term's symbols from a place on: the place after, or none.
fn step(
    firsts: &mut IndexMap<u64, usize>,
    symbol: Sym,
    symbols: &[Sym],
    skips: &[Skip],
    from: usize,
) -> Result<Option<usize>, AllocError>
    requires whole { IsWhole symbols.now }
    requires skips { HasSkips symbols.now skips.now }
    requires there { from < length symbols.now }
    requires within { AreWithin firsts.old (length symbols.now) }
    ensures step { IfOk result (IsStep symbol symbols.now from (placed symbols.now firsts.old)
        (placed symbols.now firsts.new)) }
    ensures within { OnOk result (AreWithin firsts.new (length symbols.now)) }
{
    if let Sym::Var(v) = symbol {
        return pass_variable(firsts, v, symbols, skips, from);
    }
    if symbols[from] != symbol {
        return Ok(None);
    }
    Ok(Some(from + 1))
}

/// Whether some substitution makes the general term into the special one.
fn is_made(
    alloc: Global,
    special: &Flat,
    skips: &[Skip],
    general: &Flat,
) -> Result<bool, AllocError>
    requires { HasSkips (spell special.now) skips.now }
    ensures { IfOk result (λ b. MatchBool b (IsInstance special.now general.now)
        (¬ IsInstance special.now general.now)) }
{
    let symbols = special.symbols();
    let mut firsts = IndexMap::new(alloc);
    let mut at = 0;
    'symbols: for symbol in general.symbols() {
        if at >= symbols.len() {
            return Ok(false);
        }
        match step(&mut firsts, *symbol, symbols, skips, at)? {
            None => return Ok(false),
            Some(next) => at = next,
        }
    }
    Ok(true)
}

/// An atom that is kept with its skips. Contracts see the atom.
#[derive(Drop)]
pub struct Kept {
    atom: Flat,
    skips: Vec<Skip>,
}

impl Model for Kept {
    ghost use Rattle.apd_term.specs.Term.{Term, spell};
    ghost use Rattle.apd_term.specs.Spelling.{term_code};
    ghost use Rattle.apd_skips.specs.Skips.{HasSkips};

    ghost Value = { Term };

    ghost coded = { term_code };

    ghost view = { λ k. k.atom };

    ghost invariant = { λ k. HasSkips (spell k.atom) k.skips.items };
}

impl Kept {
    /// The atom, with its skips.
    pub fn of(alloc: Global, atom: &Flat, digests: &[u64]) -> Result<Kept, AllocError>
        ensures { IfOk result (λ k. k ≡ atom.now) }
    {
        let skips = skips_of(alloc, atom, digests)?;
        let copy = atom.copy(alloc)?;
        Ok(Kept { atom: copy, skips })
    }

    /// The atom alone.
    pub fn atom(&self) -> &Flat
        ensures { result.now ≡ self.now }
    {
        &self.atom
    }

    /// Whether this is an instance of the atom. The only error is want of memory.
    pub fn is_instance(&self, alloc: Global, general: &Flat) -> Result<bool, AllocError>
        ensures { IfOk result (λ b. b ≡ is_instance self.now general.now) }
    {
        is_made(alloc, &self.atom, self.skips.as_slice(), general)
    }
}

/// Atoms that are kept with the skips of their symbols.
pub type KeptAtoms = ListOf<Kept>;
