//! Who is asked before the user: nobody, or the program of a reference file.

ghost use Rattle.std.specs.Prelude.{◌≡◌, ◌+◌, ◌<◌, ◌≤◌, length, option_map, false, IfOk};
ghost use Rattle.apd_base.specs.declared.limits.TheConstants.{MAX_FILE, MOST_NAMES, MOST_SHOWN};
ghost use Rattle.apd_io.specs.Outside.{LoadsInTurn, Rose};
ghost use Rattle.apd_clauses.specs.Clauses.{tuples_of};
ghost use Rattle.apd_load.specs.Program.{loads};
ghost use Rattle.apd_load.specs.Warnings.{warnings_of};
ghost use Rattle.apd_session.specs.Loads.{named};
ghost use Rattle.apd_session.specs.Opening.{last_line, referred_by, refused_reference};
ghost use Rattle.apd_session.specs.Preparing.{CountsLoads, IsReferring, Refers, ReviewsText, is_read_fault, stops_referring};
ghost use Rattle.apd_term.specs.Growth.{GrowsBy};
ghost use Rattle.apd_term.specs.Named.{AllTuplesNamed};
ghost use Rattle.apd_term.specs.StandardNames.{standard_names};

use crate::files::load_file;
use crate::opening::{Reviewed, Stop};
use crate::status::Status;
use apd_base::{MOST_CLAUSES, Text};
use apd_causes::LoadCause;
use apd_clauses::Program;
use apd_io::Files;
use apd_load::{LoadText, Loaded, load};
use apd_reference::{Referee, Reference};
use apd_term::Names;
use apd_text::Entry;
use std::alloc::{AllocError, Global};

/// Who is asked before the user.
#[derive(Drop)]
pub(crate) enum Referring {
    /// This is who is asked, and what there is to say of its program, where it is one.
    Asks {
        referee: Referee,
        reference: Option<Reviewed>,
    },
    /// The reference program isn't there, or is refused.
    Stops(Stop),
}

/// A reference program is refused for this cause in this line.
fn refuse(line: u32, cause: LoadCause) -> Referring
    ensures { result ≡ refused_reference line cause }
{
    Referring::Stops(Stop {
        said: Entry::ReferenceRefused { line, cause },
        status: Status::ReferenceText,
    })
}

/// The line of the last clause.
fn last_line(program: &Program) -> u32
    requires { 0 < length program.now }
    ensures { result ≡ last_line program.now }
{
    program.clause(program.count()).line
}

/// A program that was loaded as a reference, which is asked within so many ports.
fn refer_to(alloc: Global, budget: u32, loaded: Loaded) -> Referring
    requires budget { 0 < budget }
    requires budget_limit { budget ≤ MOST_SHOWN }
    requires named { AllTuplesNamed MOST_NAMES (tuples_of loaded.program) }
    requires warnings { loaded.warnings ≡ warnings_of loaded.program }
    ensures { result ≡ referred_by budget
        (loads (record { program = loaded.program; ops = loaded.ops; passed = loaded.passed })) }
{
    let Loaded {
        program,
        ops,
        passed,
        warnings,
    } = loaded;
    // Dropped by calls, here and below: else each part is a step to check.
    drop(ops);
    let clauses = program.count();
    if clauses >= MOST_CLAUSES {
        let line = last_line(&program);
        drop(program);
        drop(passed);
        drop(warnings);
        return refuse(line, LoadCause::ClausesOver);
    }
    Referring::Asks {
        referee: Referee::Program(Reference::new(alloc, program, budget)),
        reference: Some(Reviewed {
            clauses,
            passed,
            called: warnings,
        }),
    }
}

/// Who is asked by the text of a reference program. The only error is want of memory.
fn refer_by(
    alloc: Global,
    budget: u32,
    text: &Text,
    names: &mut Names,
) -> Result<Referring, AllocError>
    requires size { length text.now ≤ MAX_FILE }
    requires standard { length standard_names ≤ length names.old }
    requires room { length names.old + MAX_FILE < MOST_NAMES }
    requires budget { 0 < budget }
    requires budget_limit { budget ≤ MOST_SHOWN }
    ensures grows { GrowsBy MAX_FILE names.old names.new }
    ensures reviews { IfOk result (ReviewsText budget text.now names.new) }
    ensures ready { IfOk result (IsReferring (length names.new)) }
    ensures calm { IfOk result (λ x. is_read_fault (stops_referring x) ≡ false) }
{
    match load(alloc, text.bytes(), names) {
        Ok(loaded) => Ok(refer_to(alloc, budget, loaded)),
        Err(LoadText::Refused { line, cause }) => Ok(refuse(line, cause)),
        Err(LoadText::Memory) => Err(AllocError),
    }
}

/// Who is asked before the user: the reference program in the file of this name, where one is named. The only error is want of memory.
pub(crate) fn refer<F: Files>(
    alloc: Global,
    reference: Option<&str>,
    budget: u32,
    files: &mut F,
    names: &mut Names,
) -> Result<Referring, AllocError>
    requires standard { length standard_names ≤ length names.old }
    requires room { length names.old + MAX_FILE < MOST_NAMES }
    requires budget { 0 < budget }
    requires budget_limit { budget ≤ MOST_SHOWN }
    ensures grows { GrowsBy MAX_FILE names.old names.new }
    ensures refers { IfOk result (Refers (F.content files.old)
        (Rose (F.faults files.old) (F.faults files.new)) budget names.new
        (option_map (λ s. s.now) reference.entry)) }
    ensures ready { IfOk result (IsReferring (length names.new)) }
    ensures faults { CountsLoads stops_referring (F.faults files.old) (F.faults files.new) result }
    ensures same { F.content files.new ≡ F.content files.old }
    ensures loads { LoadsInTurn F.step files.old
        (named (option_map (λ s. s.now) reference.entry)) files.new }
{
    let Some(name) = reference else {
        return Ok(Referring::Asks {
            referee: Referee::Nobody,
            reference: None,
        });
    };
    match load_file(alloc, name, files)? {
        Ok(text) => refer_by(alloc, budget, &text, names),
        Err(stop) => Ok(Referring::Stops(stop)),
    }
}
