//! The oracle file: replies that are known and predicates that are trusted beforehand.

ghost use Rattle.std.specs.Prelude.{◌≡◌, ◌<◌, ◌≤◌, ◌+◌, length, IfOk, OnOk, IsUtf8};
ghost use Rattle.std.specs.Option.{ForSome};
ghost use Rattle.apd_base.specs.declared.limits.TheConstants.{MAX_FILE, MOST_NAMES};
ghost use Rattle.apd_term.specs.Growth.{GrowsBy};
ghost use Rattle.apd_token.specs.Grammar.{HasTokens};
ghost use Rattle.apd_known.specs.Files.{all_stated, stated_in};
ghost use Rattle.apd_known.specs.Pairs.{AllMayTrust, AllStatable, SaidFits};
ghost use Rattle.apd_known.specs.Statements.{form_numbered, form_stated, integer_of, nothing_stated, statement_added, term_stated, with_clause, with_said};
ghost use Rattle.apd_known.specs.Steps.{IsStated, unread, undivided};

use crate::statements::{FileForm, Statement, term_stated};
use apd_answers::Answers;
use apd_causes::{OracleCause, ReadFault, TokenFault};
use apd_load::{FIRST, line_of, place_of_fault, place_of_token_fault};
use apd_ops::Ops;
use apd_read::read_clause;
use apd_term::standard::FORM;
use apd_term::{Flat, Names, Pred, Sym};
use apd_token::{Tokens, tokens};
use std::alloc::{AllocError, Global};

/// What an oracle file states.
#[derive(Drop)]
pub struct Stated {
    /// The file's form.
    pub form: FileForm,
    /// The replies, each with its question, and the predicates that are trusted, in the file's order; one that is repeated is
    /// kept once.
    pub answers: Answers,
    /// How many statements there are, repeated ones counted.
    pub statements: u32,
}

/// Why an oracle file states nothing.
#[derive(Clone, Copy)]
pub enum OracleText {
    /// The text is refused, for this cause in this line, counted from 1.
    Refused { line: u32, cause: OracleCause },
    /// There was no memory.
    Memory,
}

impl From<AllocError> for OracleText {
    ghost use Rattle.std.specs.Prelude.{◌≡◌};
    ghost use Rattle.apd_known.specs.declared.file.OracleText.TheVariants.{Memory};

    ghost from_gives = { λ _ e. e ≡ Memory };

    fn from(_: AllocError) -> Self {
        OracleText::Memory
    }
}

/// The answer where a clause in this line has no reading.
fn unread(line: u32, fault: ReadFault) -> OracleText
    ensures { result ≡ unread line fault }
{
    match fault {
        ReadFault::Memory => OracleText::Memory,
        _ => OracleText::Refused {
            line,
            cause: OracleCause::Read(fault),
        },
    }
}

/// The answer where the text has no division into tokens, for a fault in this line.
fn undivided(line: u32, fault: TokenFault) -> OracleText
    ensures { result ≡ undivided line fault }
{
    match fault {
        TokenFault::Memory => OracleText::Memory,
        _ => OracleText::Refused {
            line,
            cause: OracleCause::Token(fault),
        },
    }
}

/// The integer that a term is.
fn integer_of(term: &Flat) -> Option<i64>
    ensures { result ≡ integer_of term.now }
{
    match term.symbols() {
        [Sym::Int(n), ..] => Some(*n),
        _ => None,
    }
}

/// No statement yet, in a file of this form.
fn nothing_stated(alloc: Global, form: FileForm) -> Stated
    ensures { result ≡ nothing_stated form }
{
    Stated {
        form,
        answers: Answers::new(alloc),
        statements: 0,
    }
}

/// No statement yet, where the form has this number.
fn form_numbered(alloc: Global, number: Option<i64>) -> Result<Stated, OracleCause>
    ensures { result ≡ form_numbered number }
{
    match number {
        None => Err(OracleCause::NoForm),
        Some(1) => Ok(nothing_stated(alloc, FileForm::First)),
        Some(2) => Ok(nothing_stated(alloc, FileForm::Second)),
        Some(_) => Err(OracleCause::BadForm),
    }
}

/// No statement yet, where the clause is `form(1)` or `form(2)`.
fn form_stated(alloc: Global, term: &Flat) -> Result<Result<Stated, OracleCause>, AllocError>
    ensures { IfOk result (λ s. s ≡ form_stated term.now) }
{
    match term.pred() {
        Some(
            Pred {
                name: FORM,
                arity: 1,
            },
        ) => {
            let number = term.arg(alloc, 0)?;
            Ok(form_numbered(alloc, integer_of(&number)))
        }
        _ => Ok(Err(OracleCause::NoForm)),
    }
}

/// Puts what a statement says to the store.
fn keep(store: &mut Answers, said: &Statement) -> Result<(), AllocError>
    requires { SaidFits said.now }
    ensures { OnOk result (store.new ≡ with_said store.old said.now) }
{
    match said {
        Statement::Replies(pair) => store.add(&pair.question, &pair.reply),
        Statement::Trusts(pred) => store.trust(*pred),
    }
}

/// What is stated with the clause as one more statement.
fn with_statement(
    alloc: Global,
    mut stated: Stated,
    term: &Flat,
) -> Result<Result<Stated, OracleCause>, AllocError>
    requires { stated.statements < MAX_FILE }
    ensures { IfOk result (λ s. s ≡ statement_added stated (term_stated stated.form term.now)) }
{
    match term_stated(alloc, stated.form, term) {
        Ok(Ok(said)) => {
            let kept = keep(&mut stated.answers, &said);
            // Dropped by calls, here and below: an end of the scope would drop the store part by
            // part, in as many steps to check.
            drop(said);
            if kept.is_err() {
                drop(stated);
                return Err(AllocError);
            }
            stated.statements += 1;
            Ok(Ok(stated))
        }
        Ok(Err(cause)) => {
            drop(stated);
            Ok(Err(cause))
        }
        Err(AllocError) => {
            drop(stated);
            Err(AllocError)
        }
    }
}

/// What is stated with a clause more: the first is the form, each further one a statement.
fn with_clause(
    alloc: Global,
    stated: Option<Stated>,
    term: &Flat,
) -> Result<Result<Stated, OracleCause>, AllocError>
    requires { ForSome stated (λ s. s.statements < MAX_FILE) }
    ensures { IfOk result (λ s. s ≡ with_clause stated term.now) }
{
    match stated {
        None => form_stated(alloc, term),
        Some(stated) => with_statement(alloc, stated, term),
    }
}

/// What the clauses that the tokens of a text are state, one after the other.
fn state_clauses(
    alloc: Global,
    text: &[u8],
    tokens: &Tokens,
    ops: &Ops,
    names: &mut Names,
) -> Result<Stated, OracleText>
    requires room { length names.old + length text.now < MOST_NAMES }
    requires size { length text.now ≤ MAX_FILE }
    requires utf8 { IsUtf8 text.now }
    requires tokens { HasTokens text.now tokens.now }
    ensures grows { GrowsBy (length text.now) names.old names.new }
    ensures stated { IsStated
        (λ n reader. all_stated reader ops.now text.now tokens.now) names.new result }
    ensures pairs { IfOk result (λ s. AllStatable (length names.new) s.answers.pairs) }
    ensures trust { IfOk result (λ s. AllMayTrust (length names.new) s.answers.trusted) }
{
    ops.has_no_clash();
    let mut stated = None;
    let mut last = FIRST;
    let mut at = 0;
    'clauses: while at < tokens.len() {
        let read = match read_clause(alloc, ops, names, text, tokens, at) {
            Ok(read) => read,
            Err(fault) => {
                drop(stated);
                let line = line_of(text, &mut last, place_of_fault(fault));
                return Err(unread(line, fault));
            }
        };
        let line = line_of(text, &mut last, read.start);
        match with_clause(alloc, stated, &read.term)? {
            Ok(more) => stated = Some(more),
            Err(cause) => return Err(OracleText::Refused { line, cause }),
        }
        at = read.next;
    }
    match stated {
        Some(stated) => Ok(stated),
        None => Err(OracleText::Refused {
            line: 1,
            cause: OracleCause::NoForm,
        }),
    }
}

/// What an oracle file states, read by these operators: the first clause is `form(1)` or `form(2)`, and each further one a
/// statement.
///
/// All tokens come first, then the clauses one after the other. The first fault is told: a fault of a token or of a reading
/// in the line of its place, any other cause in the line of the clause's first token, and line 1 where there is no clause.
/// Each pair fits, is one of user atoms, and has no other names than these; and so is each predicate that is trusted one that
/// a program may define. Whatever is answered, the names have only grown, by at most as many as the text has bytes.
pub fn oracle_file(
    alloc: Global,
    text: &[u8],
    ops: &Ops,
    names: &mut Names,
) -> Result<Stated, OracleText>
    requires room { length names.old + length text.now < MOST_NAMES }
    requires size { length text.now ≤ MAX_FILE }
    ensures grows { GrowsBy (length text.now) names.old names.new }
    ensures stated { IsStated (λ n reader. stated_in reader ops.now text.now) names.new result }
    ensures pairs { IfOk result (λ s. AllStatable (length names.new) s.answers.pairs) }
    ensures trust { IfOk result (λ s. AllMayTrust (length names.new) s.answers.trusted) }
{
    match tokens(alloc, text) {
        Ok(tokens) => state_clauses(alloc, text, &tokens, ops, names),
        Err(fault) => {
            let mut last = FIRST;
            let line = line_of(text, &mut last, place_of_token_fault(fault));
            Err(undivided(line, fault))
        }
    }
}
