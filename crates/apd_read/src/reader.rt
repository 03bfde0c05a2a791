//! The reading of a clause.

ghost use Rattle.std.specs.Prelude.{◌≡◌, ◌+◌, ◌-◌, ◌*◌, ◌<◌, ◌≤◌, ℕ, length, List, ◌++◌, Some, IfOk, IfErr, slice_get, Result, ◌↔◌, IsUtf8};
ghost use Rattle.apd_term.specs.Term.{size, Occurs};
ghost use Rattle.apd_term.specs.Growth.{GrowsBy};
ghost use Rattle.apd_term.specs.Named.{IsNamed};
ghost use Rattle.apd_token.specs.Grammar.{HasTokens};
ghost use Rattle.apd_token.specs.declared.items.Token.{Token};
ghost use Rattle.apd_ops.specs.Table.{Table, IsTable};
ghost use Rattle.apd_causes.specs.declared.reading.Read.{Read};
ghost use Rattle.apd_causes.specs.declared.faults.ReadFault.{ReadFault};
ghost use Rattle.apd_read.specs.Reading.{Piece, Reads, Splits, HasNoClash};
ghost use Rattle.apd_read.specs.Clause.{IsReading};
ghost use Rattle.apd_read.specs.Reader.{IsRead, Reader};
ghost use Rattle.apd_read.specs.declared.phrase.Phrase.{Phrase};
ghost use Rattle.apd_read.specs.Answer.{HasReading, IsReadFault, IsFaultIn, IsReadAs, place_of, placed};
ghost use Rattle.apd_read.specs.declared.lexeme.Lexeme.{Lexeme};
ghost use Rattle.apd_read.specs.declared.brackets.Whole.{Whole};
ghost use Rattle.apd_read.specs.declared.brackets.ClauseFault.{ClauseFault};
ghost use Rattle.apd_read.specs.declared.brackets.ClauseFault.TheVariants.{Memory};
ghost use Rattle.apd_base.specs.declared.limits.TheConstants.{MAX_FILE, MOST_NAMES};

use crate::brackets::{ClauseFault, Whole, read};
use crate::lexeme::Lexeme;
use crate::lexemes::{LexedClause, lexemes};
use crate::phrase::TOO_MANY_LEVELS;
use apd_causes::{Read, ReadFault};
use apd_ops::Ops;
use apd_term::Names;
use apd_token::Tokens;
use std::alloc::Global;

/// Where a token begins, and the text's end where there is none.
fn place_of(lexemes: &[Lexeme], end: u32, k: usize) -> u32
    ensures { result ≡ place_of lexemes.now end k }
{
    match lexemes.get(k) {
        None => end,
        Some(l) => l.start,
    }
}

/// A fault with its place in the text.
fn placed(lexemes: &[Lexeme], end: u32, fault: ClauseFault) -> ReadFault
    ensures { result ≡ placed lexemes.now end fault }
{
    match fault {
        ClauseFault::NoTerm(k) => ReadFault::NoTerm(place_of(lexemes, end, k)),
        ClauseFault::Wide(k) => ReadFault::Wide(place_of(lexemes, end, k)),
        ClauseFault::Stray(k) => ReadFault::Stray(place_of(lexemes, end, k)),
        ClauseFault::Unclosed(k) => ReadFault::Unclosed(place_of(lexemes, end, k)),
        ClauseFault::NoEnd(k) => ReadFault::NoEnd(place_of(lexemes, end, k)),
        ClauseFault::Priority(k) => ReadFault::Priority(place_of(lexemes, end, k)),
        ClauseFault::ArityOver(k) => ReadFault::ArityOver(place_of(lexemes, end, k)),
        ClauseFault::Memory => ReadFault::Memory,
    }
}

/// The clause that the lexemes are, each item read by its main operators.
fn read_by_main(alloc: Global, ops: &Ops, lexemes: &[Lexeme]) -> Result<Whole, ClauseFault>
    requires { length lexemes.now ≤ MAX_FILE }
    ensures { IsReading Splits ops.now lexemes.now result }
{
    ops.has_no_clash();
    read(alloc, ops, lexemes)
}

/// The law of one reading: by a table of operators the tokens of a clause have at most one reading,
/// at most one first fault, and not both. And splitting at main operators is the grammar of the
/// standard, where no operators clash.
pub fn one_reading()
    ensures answers { (ops : Table) (names : List (List ℕ)) (text : List ℕ) (tokens : List Token)
        (at : ℕ) (a b : Result Read ReadFault) → IsTable ops → IsRead ops names text tokens at a →
        IsRead ops names text tokens at b → a ≡ b }
    ensures grammar { (p : ℕ) (ps : List Piece) (t : Phrase) → HasNoClash ps →
        (Reads p ps t ↔ Splits p ps t) }
{}

/// The law of every reading: under any names there is a reader of texts. So each clause of a text has,
/// by each table of operators, a reading or a first fault.
pub fn every_clause_reads()
    ensures { (names : List (List ℕ)) → Reader names }
{}

/// What the lexemes of a clause read as, where they begin at a token of the text.
fn answer(
    alloc: Global,
    ops: &Ops,
    clause: LexedClause,
    at: usize,
    end: u32,
) -> Result<Read, ReadFault>
    requires short { length clause.lexemes.items ≤ MAX_FILE }
    requires low { at ≤ MAX_FILE }
    ensures ok { IfOk result (IsReadAs ops.now clause.lexemes.items clause.vars end at) }
    ensures err { IfErr result (IsFaultIn ops.now clause.lexemes.items end) }
{
    let LexedClause { lexemes, vars } = clause;
    match read_by_main(alloc, ops, &lexemes) {
        Err(fault) => {
            let told = placed(&lexemes, end, fault);
            // Dropped by calls, here and below: else each part of them is a step to check.
            drop(lexemes);
            drop(vars);
            Err(told)
        }
        Ok(whole) => {
            let Whole { phrase, next } = whole;
            let start = place_of(&lexemes, end, 0);
            drop(lexemes);
            if phrase.height >= TOO_MANY_LEVELS {
                drop(phrase);
                drop(vars);
                return Err(ReadFault::TooDeep(start));
            }
            Ok(Read {
                term: phrase.term,
                vars,
                start,
                next: at + next,
            })
        }
    }
}

/// The clause that begins at a token: its term, the texts of its variables, its first byte's place
/// and the index of the token behind it.
///
/// Variables are numbered from 1 by their first places in the clause, and each `_` is a new one. A
/// fault is the first one from the left; `TooDeep` comes only where there is no other. `Memory` is
/// the one answer that any clause may get. New names are put at the end of the names, at most one
/// for each token from that one on, also where a fault is told; names that come later change no
/// answer. The term has at most twice as many symbols as the text has bytes, and its names are among
/// these.
pub fn read_clause(
    alloc: Global,
    ops: &Ops,
    names: &mut Names,
    text: &[u8],
    tokens: &Tokens,
    at: usize,
) -> Result<Read, ReadFault>
    requires small { length text.now ≤ MAX_FILE }
    requires utf8 { IsUtf8 text.now }
    requires tokens { HasTokens text.now tokens.now }
    requires within { at < length tokens.now }
    requires room { (t : Token) → slice_get tokens.now at ≡ Some t →
        length names.old + (length text.now - t.start) < MOST_NAMES }
    ensures ok { IfOk result (λ r. (more : List (List ℕ)) →
        HasReading ops.now (names.new ++ more) text.now tokens.now at r) }
    ensures err { IfErr result (λ f. (more : List (List ℕ)) →
        IsReadFault ops.now (names.new ++ more) text.now tokens.now at f) }
    ensures size { IfOk result (λ r. size r.term ≤ 2 * length text.now) }
    ensures forward { IfOk result (λ r. (at < r.next) × (r.next ≤ length tokens.now)) }
    ensures few_vars { IfOk result (λ r. length r.vars ≤ length text.now) }
    ensures vars { IfOk result (λ r. (v : ℕ) → Occurs v r.term → (1 ≤ v) × (v ≤ length r.vars)) }
    ensures named { IfOk result (λ r. IsNamed (length names.new) r.term) }
    ensures names { IfOk result (λ r. GrowsBy (r.next - at) names.old names.new) }
    ensures kept { GrowsBy (length tokens.now - at) names.old names.new }
{
    let _count = names.count();
    let clause = lexemes(alloc, names, text, tokens.as_slice(), at)?;
    match answer(alloc, ops, clause, at, text.len() as u32) {
        Ok(read) => Ok(read),
        Err(fault) => Err(fault),
    }
}
