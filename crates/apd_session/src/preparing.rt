//! What is known before the first line: the replies of an oracle file, and the predicates that it trusts.

ghost use Rattle.std.specs.Prelude.{◌≡◌, ◌+◌, ◌<◌, ◌≤◌, length, option_map, false, IfOk};
ghost use Rattle.apd_base.specs.declared.limits.TheConstants.{MAX_FILE, MOST_NAMES};
ghost use Rattle.apd_io.specs.Outside.{LoadsInTurn, Rose};
ghost use Rattle.apd_session.specs.Loads.{named};
ghost use Rattle.apd_session.specs.Preparing.{AreReady, CountsLoads, Prepares, States, is_read_fault, refuses_with};
ghost use Rattle.apd_term.specs.Growth.{GrowsBy};

use crate::files::load_file;
use crate::opening::Stop;
use crate::status::Status;
use apd_answers::Answers;
use apd_base::Text;
use apd_io::Files;
use apd_known::{OracleText, Stated, oracle_file};
use apd_ops::Ops;
use apd_term::Names;
use apd_text::Entry;
use std::alloc::{AllocError, Global};

/// What is known before the first line.
#[derive(Drop)]
pub(crate) enum Prepared {
    /// These replies and this trust, and how many statements the oracle file has, where there is one.
    Knows {
        statements: Option<u32>,
        replies: Answers,
    },
    /// Nothing: this is said, and the session ends with this status.
    Refuses(Stop),
}

/// What the text of an oracle file makes known. The only error is want of memory.
fn state(alloc: Global, text: &Text, ops: &Ops, names: &mut Names) -> Result<Prepared, AllocError>
    requires size { length text.now ≤ MAX_FILE }
    requires room { length names.old + MAX_FILE < MOST_NAMES }
    ensures grows { GrowsBy MAX_FILE names.old names.new }
    ensures states { IfOk result (States ops.now text.now names.new) }
    ensures ready { IfOk result (AreReady (length names.new)) }
    ensures calm { IfOk result (λ x. is_read_fault (refuses_with x) ≡ false) }
{
    match oracle_file(alloc, text.bytes(), ops, names) {
        Ok(
            Stated {
                form: _,
                answers,
                statements,
            },
        ) => Ok(Prepared::Knows {
            statements: Some(statements),
            replies: answers,
        }),
        Err(OracleText::Refused { line, cause }) => Ok(Prepared::Refuses(Stop {
            said: Entry::OracleRefused { line, cause },
            status: Status::OracleText,
        })),
        Err(OracleText::Memory) => Err(AllocError),
    }
}

/// What the oracle file of this name makes known, where one is named. The only error is want of memory.
pub(crate) fn prepare<F: Files>(
    alloc: Global,
    oracle: Option<&str>,
    files: &mut F,
    ops: &Ops,
    names: &mut Names,
) -> Result<Prepared, AllocError>
    requires room { length names.old + MAX_FILE < MOST_NAMES }
    ensures grows { GrowsBy MAX_FILE names.old names.new }
    ensures prepares { IfOk result (Prepares (F.content files.old)
        (Rose (F.faults files.old) (F.faults files.new)) ops.now names.new
        (option_map (λ s. s.now) oracle.entry)) }
    ensures ready { IfOk result (AreReady (length names.new)) }
    ensures faults { CountsLoads refuses_with (F.faults files.old) (F.faults files.new) result }
    ensures same { F.content files.new ≡ F.content files.old }
    ensures loads { LoadsInTurn F.step files.old
        (named (option_map (λ s. s.now) oracle.entry)) files.new }
{
    let Some(name) = oracle else {
        return Ok(Prepared::Knows {
            statements: None,
            replies: Answers::new(alloc),
        });
    };
    match load_file(alloc, name, files)? {
        Ok(text) => state(alloc, &text, ops, names),
        Err(stop) => Ok(Prepared::Refuses(stop)),
    }
}
