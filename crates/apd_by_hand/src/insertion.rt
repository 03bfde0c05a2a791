//! An insertion sort whose third clause lacks its comparison: the diagnosis of its answer, with replies from a file.

ghost use Rattle.std.specs.Prelude.{◌≡◌, ◌+◌, ◌<◌, length, true, IfSome};
ghost use Rattle.apd_divide.specs.Exits.{IsLabelled, IsUserExit};
ghost use Rattle.apd_base.specs.declared.limits.TheConstants.{MAX_FILE, MOST_NAMES};

use crate::by_hand::symptom;
use crate::noting::Noting;
use crate::replay::replayed;
use apd_answers::Finding;
use apd_base::{MAX_FILE, MOST_NAMES, Text};
use apd_clauses::Program;
use apd_divide::Strategy;
use apd_io::Files;
use apd_known::{Scripted, oracle_file};
use apd_load::{Loaded, load};
use apd_ops::Ops;
use apd_ports::PointId;
use apd_record::Record;
use apd_symptoms::{exit_of, line_found};
use apd_term::{Flat, Names};
use apd_text::{Entry, text_of};
use apd_wrong::diagnose_wrong;
use std::alloc::Global;

/// The program, the run of its query, and what is known beforehand.
const PROGRAM: &str = "isort.pl";

const RUN: &str = "run.pl";

const REPLIES: &str = "replies.pl";

/// Whether there is room for the names of a file.
fn has_room(names: &Names) -> bool
    ensures { result ≡ true → length names.now + MAX_FILE < MOST_NAMES }
{
    names.count() < MOST_NAMES - MAX_FILE
}

/// The program that a file is.
fn loaded(alloc: Global, files: &mut impl Files, name: &str, names: &mut Names) -> Option<Loaded> {
    if !has_room(names) {
        return None;
    }
    let text = files.load(alloc, name).ok()?;
    let loaded = load(alloc, text.bytes(), names);
    // Dropped by a call, here and below: else each part is a step to check.
    drop(text);
    loaded.ok()
}

/// An oracle with the replies that are known beforehand.
fn scripted(
    alloc: Global,
    files: &mut impl Files,
    ops: &Ops,
    names: &mut Names,
) -> Option<Scripted> {
    if !has_room(names) {
        return None;
    }
    let text = files.load(alloc, REPLIES).ok()?;
    let stated = oracle_file(alloc, text.bytes(), ops, names);
    drop(text);
    match stated {
        Ok(stated) => Some(Scripted::new(alloc, stated.answers)),
        Err(_) => None,
    }
}

/// The head of an exit.
fn label_of(recorded: &Record, exit: PointId) -> Option<Flat>
    requires { IsUserExit recorded.now exit.0 }
    ensures { IfSome result (IsLabelled recorded.now exit.0) }
{
    match recorded.tuple(exit) {
        Ok(tuple) => Some(tuple.head),
        Err(_) => None,
    }
}

/// What is found of an exit, whose label isn't true.
fn found(alloc: Global, recorded: &Record, exit: PointId, oracle: &mut Noting) -> Option<Finding>
    requires { IsUserExit recorded.now exit.0 }
{
    let label = label_of(recorded, exit)?;
    let Ok(mut answers) = symptom(alloc, &label) else {
        drop(label);
        return None;
    };
    let found = diagnose_wrong(
        alloc,
        recorded,
        exit,
        &label,
        Strategy::Divide,
        &mut answers,
        oracle,
    );
    drop(answers);
    drop(label);
    match found {
        Ok(finding) => Some(finding),
        Err(_) => None,
    }
}

/// Notes what is found of an exit, whose label isn't true.
fn note_found(
    alloc: Global,
    program: &Program,
    recorded: &Record,
    exit: PointId,
    oracle: &mut Noting,
) -> Option<()>
    requires { IsUserExit recorded.now exit.0 }
{
    let finding = found(alloc, recorded, exit, oracle)?;
    let line = line_found(program, &finding);
    oracle.said.push(Entry::Found { finding, line }).ok()
}

/// What is asked and replied where the first exit of the first box isn't true, and then what is found.
fn said(
    alloc: Global,
    program: &Program,
    recorded: &Record,
    scripted: Scripted,
) -> Option<Vec<Entry>> {
    let Ok(exit) = exit_of(recorded, 1, 1) else {
        drop(scripted);
        return None;
    };
    let mut oracle = Noting::new(alloc, scripted);
    let noted = note_found(alloc, program, recorded, exit, &mut oracle);
    let Noting { scripted, said, .. } = oracle;
    drop(scripted);
    match noted {
        Some(()) => Some(said),
        None => {
            drop(said);
            None
        }
    }
}

/// The texts of the entries.
fn text_of_all(alloc: Global, said: &[Entry], names: &Names, ops: &Ops) -> Option<Text> {
    let mut text = Text::new(alloc);
    for entry in said {
        text_of(alloc, entry, names, ops, &mut text).ok()?;
    }
    Some(text)
}

/// The record of the run, by the program.
fn recorded_run(
    alloc: Global,
    files: &mut impl Files,
    program: &Program,
    names: &mut Names,
) -> Option<Record> {
    let run = loaded(alloc, files, RUN, names)?;
    let recorded = replayed(alloc, program, &run.program);
    drop(run);
    recorded
}

/// What is said in the diagnosis of a run that was recorded.
fn said_of(
    alloc: Global,
    files: &mut impl Files,
    loaded: &Loaded,
    recorded: &Record,
    names: &mut Names,
) -> Option<Vec<Entry>> {
    let scripted = scripted(alloc, files, &loaded.ops, names)?;
    said(alloc, &loaded.program, recorded, scripted)
}

/// What is said in the diagnosis of the run.
fn dialogue(
    alloc: Global,
    files: &mut impl Files,
    loaded: &Loaded,
    names: &mut Names,
) -> Option<Vec<Entry>> {
    let recorded = recorded_run(alloc, files, &loaded.program, names)?;
    let said = said_of(alloc, files, loaded, &recorded, names);
    drop(recorded);
    said
}

/// What is said in the diagnosis, as a text.
fn dialogue_text(
    alloc: Global,
    files: &mut impl Files,
    loaded: &Loaded,
    names: &mut Names,
) -> Option<Text> {
    let said = dialogue(alloc, files, loaded, names)?;
    let text = text_of_all(alloc, said.as_slice(), names, &loaded.ops);
    drop(said);
    text
}

/// The same, of the program in its file.
fn program_text(alloc: Global, files: &mut impl Files, names: &mut Names) -> Option<Text> {
    let loaded = loaded(alloc, files, PROGRAM, names)?;
    let text = dialogue_text(alloc, files, &loaded, names);
    drop(loaded);
    text
}

/// What is said in the diagnosis. None where a file isn't there or isn't what it should be, or for want of memory.
pub fn insertion_sort(alloc: Global, files: &mut impl Files) -> Option<Text> {
    let mut names = Names::standard(alloc).ok()?;
    let text = program_text(alloc, files, &mut names);
    drop(names);
    text
}
