//! The tokens of a clause by what they stand for.

ghost use Rattle.std.specs.Prelude.{◌≡◌, ◌+◌, ◌-◌, ◌<◌, ◌≤◌, [], length, slice_range, IfOk, OnOk, drop, ℕ, List, IsUtf8};
ghost use Rattle.apd_token.specs.Grammar.{IsTokenOf, HasTokens, HasText, ContentOf};
ghost use Rattle.apd_term.specs.Growth.{GrowsBy};
ghost use Rattle.apd_read.specs.Lexemes.{IsNameOf, IsSort, AreLexemes, to_end, ends_clause, EndsLast, SortIsNamed, LexemesAreNamed};
ghost use Rattle.apd_read.specs.Variables.{IsIndexed};
ghost use Rattle.apd_base.specs.declared.limits.TheConstants.{MAX_FILE, MOST_NAMES};

use crate::codes::codes;
use crate::lexeme::{Lexeme, Sort};
use crate::variables::Variables;
use apd_base::VarNames;
use apd_term::{NameId, Names};
use apd_token::{Token, TokenKind, bare_name, content};
use std::alloc::{AllocError, Global};
use std::mem::replace;

/// The tokens of a clause by what they stand for, and the texts of its variables in order.
#[derive(Drop)]
pub(crate) struct LexedClause {
    pub lexemes: Vec<Lexeme>,
    pub vars: VarNames,
}

/// The name that a token without quotes is.
fn bare(names: &mut Names, text: &[u8], token: &Token) -> Result<NameId, AllocError>
    requires small { length text.now ≤ MAX_FILE }
    requires utf8 { IsUtf8 text.now }
    requires token { IsTokenOf text.now token.now }
    requires kind { token.now.kind ≡ TokenKind.Name }
    requires room { length names.old < MOST_NAMES }
    ensures name { IfOk result (λ f. (v : List ℕ) ×
        ContentOf token.now.kind (slice_range text.now token.now.start token.now.end) v ×
        IsNameOf names.new f v) }
    ensures named { IfOk result (λ f. f.0 < length names.new) }
    ensures grown { GrowsBy 1 names.old names.new }
{
    let name = names.intern(bare_name(text, token))?;
    Ok(name)
}

/// The name that a token's characters are.
fn named(alloc: Global, names: &mut Names, text: &[u8], token: &Token) -> Result<NameId, AllocError>
    requires small { length text.now ≤ MAX_FILE }
    requires utf8 { IsUtf8 text.now }
    requires token { IsTokenOf text.now token.now }
    requires kind { HasText token.now.kind }
    requires room { length names.old < MOST_NAMES }
    ensures name { IfOk result (λ f. (v : List ℕ) ×
        ContentOf token.now.kind (slice_range text.now token.now.start token.now.end) v ×
        IsNameOf names.new f v) }
    ensures named { IfOk result (λ f. f.0 < length names.new) }
    ensures grown { GrowsBy 1 names.old names.new }
{
    let value = content(alloc, text, token)?;
    let name = names.intern(value.bytes())?;
    Ok(name)
}

/// What a token stands for.
#[tactic(auto, using(crate::proofs::Growing::grown_none))]
fn sort_of(
    alloc: Global,
    names: &mut Names,
    text: &[u8],
    token: &Token,
    vars: &mut Variables,
) -> Result<Sort, AllocError>
    requires small { length text.now ≤ MAX_FILE }
    requires utf8 { IsUtf8 text.now }
    requires token { IsTokenOf text.now token.now }
    requires room { length names.old < MOST_NAMES }
    requires few { length vars.old.texts < MOST_NAMES }
    requires indexed { IsIndexed vars.old.named vars.old.places.items vars.old.texts }
    ensures sort { IfOk result (λ s. IsSort token.now.kind names.new
        (slice_range text.now token.now.start token.now.end) vars.old.texts s vars.new.texts) }
    ensures indexed { IfOk result
        (λ _. IsIndexed vars.new.named vars.new.places.items vars.new.texts) }
    ensures named { IfOk result (SortIsNamed (length names.new)) }
    ensures grown { GrowsBy 1 names.old names.new }
{
    match token.kind {
        TokenKind::Name => Ok(Sort::Name(bare(names, text, token)?)),
        TokenKind::Quoted => Ok(Sort::Quoted(named(alloc, names, text, token)?)),
        TokenKind::Codes => {
            let value = content(alloc, text, token)?;
            Ok(Sort::Codes(codes(alloc, value.bytes())?))
        }
        TokenKind::Variable => {
            let value = content(alloc, text, token)?;
            Ok(Sort::Variable(vars.number(value)?))
        }
        TokenKind::Integer(i) => Ok(Sort::Integer(i)),
        TokenKind::Open => Ok(Sort::Open),
        TokenKind::Close => Ok(Sort::Close),
        TokenKind::OpenList => Ok(Sort::OpenList),
        TokenKind::CloseList => Ok(Sort::CloseList),
        TokenKind::OpenCurly => Ok(Sort::OpenCurly),
        TokenKind::CloseCurly => Ok(Sort::CloseCurly),
        TokenKind::Comma => Ok(Sort::Comma),
        TokenKind::Bar => Ok(Sort::Bar),
        TokenKind::End => Ok(Sort::End),
    }
}

fn ends_clause(kind: TokenKind) -> bool
    ensures { result ≡ ends_clause kind }
{
    match kind {
        TokenKind::End => true,
        _ => false,
    }
}

/// Puts what the tokens of the clause that begins at a place stand for, and its variables, where there is nothing yet.
fn push_lexemes(
    alloc: Global,
    names: &mut Names,
    text: &[u8],
    tokens: &[Token],
    at: usize,
    lexemes: &mut Vec<Lexeme>,
    vars: &mut Variables,
) -> Result<(), AllocError>
    requires small { length text.now ≤ MAX_FILE }
    requires utf8 { IsUtf8 text.now }
    requires tokens { HasTokens text.now tokens.now }
    requires few { length tokens.now ≤ MAX_FILE }
    requires within { at ≤ length tokens.now }
    requires room { length names.old + (length tokens.now - at) < MOST_NAMES }
    requires none { lexemes.old.items ≡ [] }
    requires no_vars { vars.old.texts ≡ [] }
    requires indexed { IsIndexed vars.old.named vars.old.places.items vars.old.texts }
    ensures lexemes { OnOk result (AreLexemes names.new text.now
        (to_end (drop at tokens.now)) lexemes.new.items vars.new.texts) }
    ensures named { OnOk result (LexemesAreNamed (length names.new) lexemes.new.items) }
    ensures last { OnOk result (EndsLast lexemes.new.items) }
    ensures grown { OnOk result (GrowsBy (length lexemes.new.items) names.old names.new) }
    ensures kept { GrowsBy (length tokens.now - at) names.old names.new }
{
    let mut i = at;
    'tokens: while i < tokens.len() {
        let token = &tokens[i];
        let sort = sort_of(alloc, names, text, token, vars)?;
        lexemes.push(Lexeme {
            sort,
            spaced: token.spaced,
            start: token.start,
        })?;
        if ends_clause(token.kind) {
            return Ok(());
        }
        i += 1;
    }
    Ok(())
}

/// There is room at once for so many lexemes of a clause.
const USUAL: usize = 32;

/// What the tokens of the clause that begins at a place stand for.
pub(crate) fn lexemes(
    alloc: Global,
    names: &mut Names,
    text: &[u8],
    tokens: &[Token],
    at: usize,
) -> Result<LexedClause, AllocError>
    requires small { length text.now ≤ MAX_FILE }
    requires utf8 { IsUtf8 text.now }
    requires tokens { HasTokens text.now tokens.now }
    requires few { length tokens.now ≤ MAX_FILE }
    requires within { at ≤ length tokens.now }
    requires room { length names.old + (length tokens.now - at) < MOST_NAMES }
    ensures lexemes { IfOk result (λ c. AreLexemes names.new text.now
        (to_end (drop at tokens.now)) c.lexemes.items c.vars) }
    ensures named { IfOk result (λ c. LexemesAreNamed (length names.new) c.lexemes.items) }
    ensures last { IfOk result (λ c. EndsLast c.lexemes.items) }
    ensures grown { IfOk result (λ c. GrowsBy (length c.lexemes.items) names.old names.new) }
    ensures kept { GrowsBy (length tokens.now - at) names.old names.new }
{
    let mut lexemes = Vec::with_capacity(alloc, USUAL)?;
    let mut vars = Variables::new(alloc);
    match push_lexemes(alloc, names, text, tokens, at, &mut lexemes, &mut vars) {
        Ok(()) => {
            let texts = replace(&mut vars.texts, VarNames::new(alloc));
            // Dropped by a call, here and below: else each part of it is a step to check.
            drop(vars);
            Ok(LexedClause {
                lexemes,
                vars: texts,
            })
        }
        Err(AllocError) => {
            drop(lexemes);
            drop(vars);
            Err(AllocError)
        }
    }
}
