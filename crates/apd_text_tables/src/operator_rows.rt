//! What tables of operators give, beside the plain program.

use apd_ops::{Op, OpFault, OpKind, Ops};
use apd_plain::ops::{meaning, plain_define};
use apd_rows::{Builder, Scene, Trial};
use apd_term::NameId;
use apd_term::standard::{BAR, COMMA, CURLY, MINUS, NECK, NIL, PLUS, TRUE};
use std::alloc::{AllocError, Global};
use std::str;

/// The names whose meanings are compared: more than the standard ones.
const COMPARED_NAMES: u32 = 200;

const PRIORITY_COUNT: usize = 10;

const PRIORITIES: [i64; PRIORITY_COUNT] = [-1, 0, 1, 200, 400, 500, 700, 1000, 1200, 1201];

const KIND_COUNT: usize = 5;

const KINDS: [OpKind; KIND_COUNT] = [
    OpKind::Xfx,
    OpKind::Xfy,
    OpKind::Yfx,
    OpKind::Fx,
    OpKind::Fy,
];

const NAME_COUNT: usize = 8;

const NAMES: [NameId; NAME_COUNT] = [PLUS, MINUS, TRUE, NECK, COMMA, BAR, NIL, CURLY];

fn put_meaning(given: &mut Builder, meaning: Option<(u16, OpKind)>) {
    match meaning {
        Some((priority, kind)) => {
            given.put_shown(&priority);
            given.put(" ");
            given.put_debug(&kind);
        }
        None => given.put("-"),
    }
}

/// Adds what a name means before its operand and between its operands.
fn put_meanings_of(given: &mut Builder, ops: &Ops, name: NameId) {
    put_meaning(given, ops.prefix(name));
    given.put(", ");
    put_meaning(given, ops.infix(name));
}

/// Gives what the row's name means.
pub fn put_meanings(trial: &mut Trial) -> Option<()> {
    trial.change()?;
    let name = trial.scene.name(trial.row.text(1)).ok()?;
    put_meanings_of(&mut trial.given, &trial.scene.ops, name);
    Some(())
}

/// Adds what is said of a definition.
fn put_said(given: &mut Builder, said: Result<(), OpFault>) {
    match said {
        Ok(()) => given.put("ok"),
        Err(fault) => given.put_debug(&fault),
    }
    given.put(": ");
}

/// Makes a definition, and adds what is said of it and what its name means afterwards.
fn put_definition(given: &mut Builder, scene: &mut Scene, line: &str) -> Option<()> {
    put_said(given, scene.define(line));
    let name = scene.name(line.splitn(3, ' ').last().unwrap_or("")).ok()?;
    put_meanings_of(given, &scene.ops, name);
    given.put("; ");
    Some(())
}

/// Makes definitions in turn.
fn put_all(given: &mut Builder, scene: &mut Scene, fields: &[Vec<u8>]) -> Option<()> {
    for field in fields {
        put_definition(given, scene, str::from_utf8(field.as_slice()).unwrap_or(""))?;
    }
    Some(())
}

/// Makes the definitions of the row in turn.
pub fn put_definitions(trial: &mut Trial) -> Option<()> {
    trial.change()?;
    put_all(&mut trial.given, &mut trial.scene, trial.row.given(1))
}

/// The operators of a table, as a list.
fn listed(alloc: Global, ops: &Ops) -> Result<Vec<Op>, AllocError> {
    let mut table = Vec::new(alloc);
    for id in 0..COMPARED_NAMES * 2 {
        let name = NameId(id / 2);
        let meaning = if id % 2 == 0 {
            ops.prefix(name)
        } else {
            ops.infix(name)
        };
        if let Some((priority, kind)) = meaning {
            table.push(Op {
                name,
                priority,
                kind,
            })?;
        }
    }
    Ok(table)
}

fn agree_on(ops: &Ops, table: &[Op], name: NameId) -> bool {
    ops.prefix(name) == meaning(table, name, true) && ops.infix(name) == meaning(table, name, false)
}

/// Whether both tables give the names the same meanings.
fn agree(ops: &Ops, table: &[Op]) -> bool {
    for id in 0..COMPARED_NAMES {
        if !agree_on(ops, table, NameId(id)) {
            return false;
        }
    }
    true
}

/// A definition of a name: the names change first, then the kinds, then the priorities.
fn definition(k: usize) -> Option<(i64, OpKind, NameId)> {
    let priority = PRIORITIES.get(k / (NAME_COUNT * KIND_COUNT))?;
    let kind = KINDS.get(k / NAME_COUNT % KIND_COUNT)?;
    let name = NAMES.get(k % NAME_COUNT)?;
    Some((*priority, *kind, *name))
}

/// Makes the definition in both tables; whether both say the same, and are alike then.
fn is_alike(alloc: Global, ops: &mut Ops, plain: &mut Vec<Op>, k: usize) -> bool {
    let Some((priority, kind, name)) = definition(k) else {
        return false;
    };
    let said = ops.define(priority, kind, name).err();
    match plain_define(alloc, plain, priority, kind, name) {
        Ok(after) => {
            *plain = after;
            said.is_none() && agree(ops, plain)
        }
        Err(fault) => said == Some(fault) && agree(ops, plain),
    }
}

/// How many definitions both programs make or refuse alike, in turn.
fn count_alike(alloc: Global, ops: &mut Ops, plain: &mut Vec<Op>) -> u32 {
    let mut alike: u32 = 0;
    for k in 0..PRIORITY_COUNT * KIND_COUNT * NAME_COUNT {
        if is_alike(alloc, ops, plain, k) {
            alike = alike.saturating_add(1);
        }
    }
    alike
}

/// Gives how many operators the row's table has, and how many definitions both programs make or refuse alike.
pub fn put_definitions_alike(trial: &mut Trial) -> Option<()> {
    let alloc = trial.alloc;
    trial.change()?;
    let mut plain = listed(alloc, &trial.scene.ops).ok()?;
    let count = plain.len();
    let alike = count_alike(alloc, &mut trial.scene.ops, &mut plain);
    trial.given.put_made(format!(in alloc; "{count} operators, {alike} definitions alike"));
    Some(())
}
