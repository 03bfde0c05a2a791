//! The texts of a log's entries, and how its last run is finished.

use crate::line_rows::asked;
use apd_base::Text;
use apd_causes::{
    BodyFault, LoadCause, OpCause, OracleCause, Query, Ran, ReadFault, RunEnd, TokenFault,
};
use apd_ports::Filter;
use apd_rows::{Builder, Row, Scene, Trial};
use apd_term::Pred;
use apd_text::{Entries, Entry, Refusal, text_of};
use std::alloc::{AllocError, Global};

/// The end of each run that is finished.
const RAN: Ran = Ran {
    end: RunEnd::Exhausted,
    ports: 6,
    answers: 2,
};

fn token_fault(name: &str, at: u32) -> Option<TokenFault> {
    Some(match name {
        "NotUtf8" => TokenFault::NotUtf8(at),
        "BadChar" => TokenFault::BadChar(at),
        "OpenQuote" => TokenFault::OpenQuote(at),
        "OpenComment" => TokenFault::OpenComment(at),
        "BadEscape" => TokenFault::BadEscape(at),
        "NumberTooWide" => TokenFault::NumberTooWide(at),
        "FloatLiteral" => TokenFault::FloatLiteral(at),
        "Memory" => TokenFault::Memory,
        _ => return None,
    })
}

fn read_fault(name: &str, at: u32) -> Option<ReadFault> {
    Some(match name {
        "NoTerm" => ReadFault::NoTerm(at),
        "Priority" => ReadFault::Priority(at),
        "Unclosed" => ReadFault::Unclosed(at),
        "Stray" => ReadFault::Stray(at),
        "NoEnd" => ReadFault::NoEnd(at),
        "ArityOver" => ReadFault::ArityOver(at),
        "Wide" => ReadFault::Wide(at),
        "TooDeep" => ReadFault::TooDeep(at),
        "Memory" => ReadFault::Memory,
        _ => return None,
    })
}

fn op_cause(name: &str) -> Option<OpCause> {
    Some(match name {
        "BadPriority" => OpCause::BadPriority,
        "Postfix" => OpCause::Postfix,
        "BadKind" => OpCause::BadKind,
        "BadName" => OpCause::BadName,
        "Fixed" => OpCause::Fixed,
        "Clash" => OpCause::Clash,
        _ => return None,
    })
}

fn body_fault(name: &str, pred: Pred) -> Option<BodyFault> {
    Some(match name {
        "Dcg" => BodyFault::Dcg,
        "NotCallable" => BodyFault::NotCallable,
        "HeadIsBuiltin" => BodyFault::HeadIsBuiltin(pred),
        "VariableGoal" => BodyFault::VariableGoal,
        "Cut" => BodyFault::Cut,
        "Negation" => BodyFault::Negation,
        "Disjunction" => BodyFault::Disjunction,
        "IfThen" => BodyFault::IfThen,
        "Impure" => BodyFault::Impure(pred),
        "DcgList" => BodyFault::DcgList,
        "DcgArity" => BodyFault::DcgArity,
        "BodyOver" => BodyFault::BodyOver,
        "Memory" => BodyFault::Memory,
        _ => return None,
    })
}

/// The cause of a refused oracle file, of a kind with this name, at this place.
fn oracle_cause(kind: &str, name: &str, at: u32) -> Option<OracleCause> {
    match kind {
        "token" => return Some(OracleCause::Token(token_fault(name, at)?)),
        "read" => return Some(OracleCause::Read(read_fault(name, at)?)),
        _ => {}
    }
    Some(match name {
        "NoForm" => OracleCause::NoForm,
        "BadForm" => OracleCause::BadForm,
        "NotAStatement" => OracleCause::NotAStatement,
        "NotUserAtom" => OracleCause::NotUserAtom,
        "NotGround" => OracleCause::NotGround,
        "WrongCount" => OracleCause::WrongCount,
        "BuiltinFalse" => OracleCause::BuiltinFalse,
        _ => return None,
    })
}

/// The cause of a kind with this name, at this place, of this predicate.
fn cause_named(kind: &str, name: &str, at: u32, pred: Pred) -> Option<LoadCause> {
    match kind {
        "token" => Some(LoadCause::Token(token_fault(name, at)?)),
        "read" => Some(LoadCause::Read(read_fault(name, at)?)),
        "op" => Some(LoadCause::Op(op_cause(name)?)),
        "body" => Some(LoadCause::Body(body_fault(name, pred)?)),
        "clauses" => Some(LoadCause::ClausesOver),
        _ => None,
    }
}

/// A refused command, by the cause: that of a body is of its goals.
fn refused_for(cause: LoadCause) -> Entry {
    let refusal = match cause {
        LoadCause::Body(fault) => Refusal::GoalRefused(fault),
        cause => Refusal::Syntax(cause),
    };
    Entry::Refused { refusal }
}

/// The entry of a name, with a number, and of a predicate or for a cause.
fn entry_named(name: &str, at: u32, pred: Pred, cause: LoadCause) -> Option<Entry> {
    Some(match name {
        "passed over" => Entry::PassedOver { line: at, pred },
        "warning" => Entry::Warning {
            line: Some(at),
            pred,
        },
        "query warning" => Entry::Warning { line: None, pred },
        "loaded" => Entry::Loaded { clauses: at },
        "oracle loaded" => Entry::OracleLoaded { statements: at },
        "reference loaded" => Entry::ReferenceLoaded { clauses: at },
        "too long" => Entry::Refused {
            refusal: Refusal::TooLong,
        },
        "not a command" => Entry::Refused {
            refusal: Refusal::NotACommand,
        },
        "refused" => refused_for(cause),
        "program refused" => Entry::ProgramRefused { line: at, cause },
        "reference refused" => Entry::ReferenceRefused { line: at, cause },
        "usage" => Entry::UsageRefused,
        "file too long" => Entry::FileTooLong {
            length: u64::from(at),
        },
        "read fault" => Entry::InputFault,
        "input limit" => Entry::InputOver,
        _ => return None,
    })
}

/// The entry of a row, with this predicate.
fn entry_of(row: &Row, pred: Pred) -> Option<Entry> {
    let (name, number) = (row.text(0), row.number(1));
    let (kind, cause, at) = (row.text(3), row.text(4), row.number(5));
    if name == "oracle refused" {
        return Some(Entry::OracleRefused {
            line: number,
            cause: oracle_cause(kind, cause, at)?,
        });
    }
    entry_named(name, number, pred, cause_named(kind, cause, at, pred)?)
}

fn entry_text(alloc: Global, scene: &Scene, entry: &Entry) -> Result<Text, AllocError> {
    let mut text = Text::new(alloc);
    text_of(alloc, entry, &scene.names, &scene.ops, &mut text)?;
    Ok(text)
}

/// Gives the text of an entry, which is then given up.
pub fn put_text_of(trial: &mut Trial, entry: Entry) {
    let text = entry_text(trial.alloc, &trial.scene, &entry);
    drop(entry);
    trial.given.put_made_text(text);
}

/// Gives the text of an entry: its name, its number, an atom of its predicate, and the kind, the name and the place of its
/// cause.
pub fn put_entry(trial: &mut Trial) -> Option<()> {
    let pred = trial.pred(2)?;
    let entry = entry_of(&trial.row, pred)?;
    put_text_of(trial, entry);
    Some(())
}

/// The query of the goal `a`.
fn query_of(alloc: Global, scene: &mut Scene) -> Option<Query> {
    let read = scene.read(alloc, "a")?;
    let query = asked(alloc, &read.term);
    drop(read);
    query.ok()
}

/// A run of the goal `a`.
fn run_of(alloc: Global, scene: &mut Scene) -> Option<Entry> {
    Some(Entry::Run {
        query: query_of(alloc, scene)?,
        budget: 7,
        answers: 5,
        filter: Filter::All,
        end: None,
    })
}

/// What an entry is, and whether its run is finished.
fn word_of(entry: &Entry) -> &'static str {
    match entry {
        Entry::Run { end: None, .. } => "run",
        Entry::Run { end: Some(RAN), .. } => "ended",
        Entry::InputOver => "over",
        _ => "other",
    }
}

fn put_words(given: &mut Builder, entries: &Entries) {
    for i in 0..entries.len() {
        given.put(if i == 0 { "" } else { " " });
        given.put(word_of(entries.entry(i)));
    }
}

/// A call on the entries: a run is noted, another entry is, or the last run is finished.
fn call(alloc: Global, scene: &mut Scene, entries: &mut Entries, name: &str) -> Option<()> {
    match name {
        "reserve" => entries.reserve(2).ok(),
        "run" => entries.push(run_of(alloc, scene)?).ok(),
        "over" => entries.push(Entry::InputOver).ok(),
        _ => {
            entries.finish(RAN);
            Some(())
        }
    }
}

/// Makes the calls that the row names.
fn call_all(trial: &mut Trial, entries: &mut Entries) -> Option<()> {
    for name in trial.row.text(0).split(' ') {
        call(trial.alloc, &mut trial.scene, entries, name)?;
    }
    Some(())
}

/// Gives the entries after the calls that the row names.
pub fn put_finished(trial: &mut Trial) -> Option<()> {
    let mut entries = Entries::new(trial.alloc);
    let called = call_all(trial, &mut entries);
    if called.is_some() {
        put_words(&mut trial.given, &entries);
    }
    // Dropped by a call: else each part is a step to check.
    drop(entries);
    called
}
