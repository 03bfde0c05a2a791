//! Filters of ports: what they admit, and the text of one that is set.

use crate::entry_rows::put_text_of;
use crate::line_rows::port_named;
use apd_ports::{Admit, Event, Filter};
use apd_rows::{BETWEEN, Scene, Trial};
use apd_term::{Pred, Preds};
use apd_text::Entry;
use std::alloc::Global;
use std::boxed::Box;

/// The predicate of an atom.
fn pred_of(alloc: Global, scene: &mut Scene, atom: &str) -> Option<Pred> {
    let read = scene.read(alloc, atom)?;
    let pred = read.term.pred();
    // Dropped by calls, here and below: else each part is a step to check.
    drop(read);
    pred
}

/// Puts the predicates of the atoms of a list behind others.
fn put_preds(alloc: Global, scene: &mut Scene, preds: &mut Preds, atoms: &str) -> Option<()> {
    for atom in atoms.split(BETWEEN) {
        let pred = pred_of(alloc, scene, atom)?;
        preds.push(pred).ok()?;
    }
    Some(())
}

/// The filter of the predicates of the atoms of a list.
fn leap_to(alloc: Global, scene: &mut Scene, atoms: &str) -> Option<Filter> {
    let mut preds = Preds::new(alloc);
    match put_preds(alloc, scene, &mut preds, atoms) {
        Some(()) => Some(Filter::Leap(preds)),
        None => {
            drop(preds);
            None
        }
    }
}

/// The filter of a row: a word, and the atoms of its predicates or the number of its box.
fn filter_of(trial: &mut Trial) -> Option<Filter> {
    let row = &trial.row;
    match row.text(0) {
        "off" => Some(Filter::Off),
        "all" => Some(Filter::All),
        "skip" => Some(Filter::Skip(row.number(1))),
        "leap" => leap_to(trial.alloc, &mut trial.scene, row.text(1)),
        _ => None,
    }
}

/// The event of a port, a box, its caller and an atom, as in `Call 2 1 p(X)`.
fn event_of(alloc: Global, scene: &mut Scene, item: &str) -> Option<Event> {
    let (port, rest) = item.split_once(' ')?;
    let (box_no, rest) = rest.split_once(' ')?;
    let (caller, atom) = rest.split_once(' ')?;
    let atom = scene.read(alloc, atom)?.term;
    Some(Event {
        port: port_named(port),
        box_no: box_no.parse::<u32>().unwrap_or(0),
        caller: caller.parse::<u32>().unwrap_or(0),
        depth: 1,
        atom,
    })
}

/// The filter of a row at work.
fn admit_of(trial: &mut Trial) -> Option<Box<Admit>> {
    let filter = filter_of(trial)?;
    let admit = Admit::new(trial.alloc, &filter);
    drop(filter);
    Box::new(trial.alloc, admit.ok()?).ok()
}

/// Whether an event is admitted.
fn admits(alloc: Global, scene: &mut Scene, admit: &mut Admit, item: &str) -> Option<bool> {
    let event = event_of(alloc, scene, item)?;
    let admits = admit.admits(&event);
    drop(event);
    admits.ok()
}

/// Gives a mark for each of the row's events: whether it is admitted.
fn put_marks(trial: &mut Trial, admit: &mut Admit) -> Option<()> {
    for item in trial.row.text(2).split(BETWEEN) {
        let admits = admits(trial.alloc, &mut trial.scene, admit, item)?;
        trial.given.put(if admits { "+" } else { "-" });
    }
    Some(())
}

/// Gives a mark for each of the row's events: whether the row's filter admits it.
pub fn put_admitted(trial: &mut Trial) -> Option<()> {
    let mut admit = admit_of(trial)?;
    let put = put_marks(trial, &mut admit);
    drop(admit);
    put
}

/// Gives the text of the entry that the row's filter was set.
pub fn put_set(trial: &mut Trial) -> Option<()> {
    let filter = filter_of(trial)?;
    put_text_of(trial, Entry::TraceSet { filter });
    Some(())
}
