//! What a run leaves in its record.

ghost use Rattle.std.specs.Prelude.{◌<◌, ◌≤◌, length};

use crate::run_rows::{Left, put_ran, ran_of_row};
use apd_record::{PointId, Record};
use apd_rows::Trial;
use std::alloc::AllocError;

/// Gives a point: its head, its clause, how many goals are solved and whose it is.
fn put_point(trial: &mut Trial, history: &Record, p: PointId) -> Result<(), AllocError>
    requires { p.0 < length history.now.points }
{
    let tuple = history.tuple(p)?;
    trial.put_tuple(&tuple);
    // Dropped by a call, here and below: else each part is a step to check.
    drop(tuple);
    let (clause, done, owner) = (history.clause(p), history.done(p), history.owner(p));
    let rest = format!(in trial.alloc; " by clause {clause}, {done} done, box {owner}");
    trial.given.put_made(rest);
    Ok(())
}

/// Gives an exit, and the point that the point of the call came to by it.
fn put_exit(
    trial: &mut Trial,
    history: &Record,
    from: PointId,
    exit: PointId,
) -> Result<(), AllocError>
    requires from { from.0 < length history.now.points }
    requires exit { exit.0 < length history.now.points }
{
    trial.given.put("\n  exit ");
    put_point(trial, history, exit)?;
    if let Some(next) = history.follow(from, exit) {
        trial.given.put("\n  then ");
        put_point(trial, history, next)?;
    }
    Ok(())
}

/// Gives the exits of a box, and the points that the point of its call came to by them.
fn put_exits(trial: &mut Trial, history: &Record, b: u32, from: PointId) -> Result<(), AllocError>
    requires from { from.0 < length history.now.points }
    requires box_no { b ≤ length history.now.boxes }
{
    for exit in history.exits(b) {
        put_exit(trial, history, from, *exit)?;
    }
    Ok(())
}

/// Gives what a box is, and its last port.
fn put_kind(trial: &mut Trial, history: &Record, b: u32)
    requires from { 0 < b }
    requires to { b ≤ length history.now.boxes }
{
    trial.given.put(if history.is_user(b) {
        ": user, "
    } else {
        ": built in, "
    });
    trial.given.put(if history.is_complete(b) {
        "complete, "
    } else {
        "open, "
    });
    let last = history.last_port(b);
    trial.given.put_debug(&last);
    trial.given.put("\n  from ");
}

/// Gives a box: its goal, what it is, its last port, the point of its call and its exits.
fn put_box(trial: &mut Trial, history: &Record, b: u32) -> Result<(), AllocError>
    requires from { 0 < b }
    requires to { b ≤ length history.now.boxes }
{
    trial.given.put("\nbox ");
    trial.given.put_shown(&b);
    trial.given.put(" ");
    trial.put_made_term(history.call_atom(b));
    put_kind(trial, history, b);
    let from = history.from(b);
    put_point(trial, history, from)?;
    put_exits(trial, history, b, from)
}

/// Gives the number of the points of the answers, and the boxes, each with its exits.
fn put_boxes(trial: &mut Trial, history: &Record) -> Result<(), AllocError> {
    trial.given.put(", ");
    trial.given.put_shown(&history.exits(0).len());
    trial.given.put(" exits");
    for place in 0..history.boxes() {
        put_box(trial, history, place + 1)?;
    }
    Ok(())
}

/// Gives the end of a run, and what stands in its record then.
fn put_run(trial: &mut Trial, left: &mut Left) -> Option<()> {
    let ran = ran_of_row(trial, left)?;
    put_ran(&mut trial.given, ran);
    put_boxes(trial, &left.history).ok()
}

/// Gives the end of the row's run, and what stands in its record then.
pub fn put_record(trial: &mut Trial) -> Option<()> {
    let mut left = Left::new(trial.alloc, false)?;
    let put = put_run(trial, &mut left);
    drop(left);
    put
}
