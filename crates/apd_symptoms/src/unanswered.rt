//! The box that didn't give an atom.

ghost use Rattle.std.specs.Prelude.{◌≡◌, ◌+◌, ◌<◌, ◌≤◌, ℕ, length, IfOk, IfErr};
ghost use Rattle.apd_arith.specs.Truths.{is_ground};
ghost use Rattle.apd_record.specs.Recorded.{box_at, exits};
ghost use Rattle.apd_symptoms.specs.Unanswered.{answer_from, unanswered_box, unanswered_in};
ghost use Rattle.apd_text.specs.Named.{RefusalIsNamed};

use crate::symptoms::box_number;
use apd_answers::is_instance;
use apd_ports::PointId;
use apd_record::Record;
use apd_term::{Flat, Tuple};
use apd_text::Refusal;
use std::alloc::{AllocError, Global};

/// The number of the exit at this place among those of its box; its point has a greater number than the place.
fn exit_number(place: usize, exit: PointId) -> u32
    requires { place < exit.0 }
    ensures { result ≡ place + 1 }
{
    place as u32 + 1
}

/// The number, counted from 1, of the box's first exit whose head has the atom as an instance.
fn first_answer(
    alloc: Global,
    history: &Record,
    b: u32,
    atom: &Flat,
) -> Result<Option<u32>, AllocError>
    requires from { 0 < b }
    requires to { b ≤ length history.now.boxes }
    ensures { IfOk result (λ k. k ≡ answer_from history.now atom.now 1 (exits history.now b)) }
{
    history.is_kept();
    'exits: for (place, exit) in history.exits(b).iter().enumerate() {
        let Tuple { head, .. } = history.tuple(*exit)?;
        if is_instance(alloc, atom, &head)? {
            return Ok(Some(exit_number(place, *exit)));
        }
    }
    Ok(None)
}

/// Whether the atom has no variable.
fn is_ground(atom: &Flat) -> bool
    ensures { result ≡ is_ground atom.now }
{
    atom.is_ground()
}

/// The box with this number, unless one of the conditions fails under which it has no answer for the atom.
fn unanswered(
    alloc: Global,
    history: &Record,
    b: u32,
    atom: &Flat,
) -> Result<Result<u32, Refusal>, AllocError>
    requires from { 0 < b }
    requires to { b ≤ length history.now.boxes }
    ensures { IfOk result (λ r.
        r ≡ unanswered_in history.now b atom.now (box_at history.now b)) }
{
    if !history.is_user(b) {
        return Ok(Err(Refusal::NotUserBox(b)));
    }
    if !history.is_complete(b) {
        return Ok(Err(Refusal::NotComplete(b)));
    }
    if !is_ground(atom) {
        return Ok(Err(Refusal::NotGround));
    }
    let call = history.call_atom(b)?;
    if !is_instance(alloc, atom, &call)? {
        return Ok(Err(Refusal::NotInstance));
    }
    match first_answer(alloc, history, b, atom)? {
        None => Ok(Ok(b)),
        Some(number) => Ok(Err(Refusal::Answered(number))),
    }
}

/// The box with this number, counted from 1, that didn't give the atom, or why no missing answer is diagnosed there.
///
/// The refusals, looked for in this order: [`Refusal::NoSuchBox`] where there is no box of this number,
/// [`Refusal::NotUserBox`] where it is one of a built-in goal, [`Refusal::NotComplete`] where it wasn't searched to its end,
/// [`Refusal::NotGround`] where the atom has a variable, [`Refusal::NotInstance`] where it isn't an instance of the box's
/// call, and [`Refusal::Answered`] with the number of the first exit that has it as an instance.
///
/// # Errors
///
/// Where there was no memory.
pub fn unanswered_box(
    alloc: Global,
    history: &Record,
    box_no: i64,
    atom: &Flat,
) -> Result<Result<u32, Refusal>, AllocError>
    ensures found { IfOk result (λ r. r ≡ unanswered_box history.now box_no atom.now) }
    ensures named { (n : ℕ) → IfOk result (λ r. IfErr r (RefusalIsNamed n)) }
{
    let Some(b) = box_number(history, box_no) else {
        return Ok(Err(Refusal::NoSuchBox(box_no)));
    };
    unanswered(alloc, history, b, atom)
}
