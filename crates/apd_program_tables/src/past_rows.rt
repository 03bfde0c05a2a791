//! What the term of a past was at each of its moments.

ghost use Rattle.std.specs.Prelude.{◌≡◌};
ghost use Rattle.std.specs.Bool.{OnTrue};
ghost use Rattle.apd_cells.specs.declared.heap.Binding.TheVariants.{Free};
ghost use Rattle.apd_cells.specs.Store.{binding_of, MayBind};
ghost use Rattle.apd_past.specs.History.{present};

use apd_past::past::{Moment, Past, PastCell};
use apd_past::writing::Page;
use apd_rows::Trial;
use apd_term::{Flat, Sym};
use std::alloc::Global;

/// A past whose first cell is that of a term.
#[derive(Drop)]
struct Tried {
    alloc: Global,
    term: Flat,
    past: Past,
    page: Page,
}

/// Whether a variable is free at present.
fn is_free(past: &Past, v: u64) -> bool
    ensures { OnTrue result (binding_of (present past.now).trail v ≡ Free) }
{
    match past.bound_at(past.moment(), v) {
        None => true,
        Some(_) => false,
    }
}

/// Whether a variable is free, and may be bound to a cell where a number stands, or a free variable that is older. False says
/// nothing.
fn may_bind(past: &Past, v: u64, to: PastCell) -> bool
    ensures { OnTrue result (MayBind
        past.now.cells past.now.variables (present past.now).trail v to.0) }
{
    if to.0 as usize >= past.cells() || v >= past.variables() as u64 || !is_free(past, v) {
        return false;
    }
    match past.symbol(to.0 as usize) {
        Sym::Int(_) => true,
        Sym::Var(w) => {
            if w < v && is_free(past, w) {
                return true;
            }
            false
        }
        Sym::Fun(..) => false,
    }
}

/// The number of the variable that a capital letter names: 1 for `A`.
fn variable_of(letter: u8) -> u64 {
    u64::from(letter.saturating_sub(b'A')) + 1
}

/// The first cell where a variable is written in the term.
fn place_of(term: &Flat, v: u64) -> Option<PastCell> {
    let mut at = 0u32;
    for symbol in term.symbols() {
        if *symbol == Sym::Var(v) {
            return Some(PastCell(at));
        }
        at = at.saturating_add(1);
    }
    None
}

impl Tried {
    /// The past of a term.
    fn new(alloc: Global, term: Flat) -> Option<Tried> {
        let mut past = Past::new(alloc);
        if past.load(term.symbols()).is_ok() {
            return Some(Tried {
                alloc,
                term,
                past,
                page: Page::new(alloc),
            });
        }
        // Dropped by calls, here and below: else each part is a step to check.
        drop(past);
        drop(term);
        None
    }

    fn bind(&mut self, letter: u8, to: PastCell) -> Option<()> {
        let v = variable_of(letter);
        if !may_bind(&self.past, v, to) {
            return None;
        }
        self.past.bind(v, to).ok()
    }

    /// Does a deed: `A7` binds the first variable to the number 7, which is loaded for it, and `BA` the second one to the
    /// first; anything else frees the variable that was bound last.
    fn do_deed(&mut self, deed: &[u8]) -> Option<()> {
        match deed {
            [letter, digit @ b'0'..=b'9'] => {
                let number = Sym::Int(i64::from(*digit - b'0'));
                let to = self.past.load(&[number]).ok()?;
                self.bind(*letter, to)
            }
            [letter, other] => {
                let to = place_of(&self.term, variable_of(*other))?;
                self.bind(*letter, to)
            }
            _ => self.past.unbind().ok(),
        }
    }

    /// The term at a moment.
    fn term_at(&mut self, moment: Moment) -> Option<Flat> {
        if moment.0 > self.past.moment().0 || self.past.cells() == 0 {
            return None;
        }
        let then = self.past.at(moment);
        then.term(&mut self.page, self.alloc, PastCell(0)).ok()
    }

    /// Does deeds, and keeps a copy of what the term is behind each.
    fn do_deeds(&mut self, deeds: &[Vec<u8>], copies: &mut Vec<Flat>) -> Option<()> {
        for deed in deeds {
            self.do_deed(deed.as_slice())?;
            let now = self.past.moment();
            let copy = self.term_at(now)?;
            copies.push(copy).ok()?;
        }
        Some(())
    }
}

/// The past of the row's term.
fn tried_of_row(trial: &mut Trial) -> Option<Tried> {
    let term = trial.term(0)?;
    Tried::new(trial.alloc, term)
}

/// Does the row's deeds, and gives what the term was before them and behind each.
fn put_moments(trial: &mut Trial, tried: &mut Tried) -> Option<()> {
    for deed in trial.row.given(1) {
        tried.do_deed(deed.as_slice())?;
    }
    for moment in 0..=tried.past.moment().0 {
        let then = tried.term_at(Moment(moment))?;
        trial.given.put(if moment > 0 { "; " } else { "" });
        trial.put_term(&then);
        drop(then);
    }
    Some(())
}

/// Gives what a term was before the deeds and behind each, read when all are done.
pub fn put_past(trial: &mut Trial) -> Option<()> {
    let mut tried = tried_of_row(trial)?;
    let put = put_moments(trial, &mut tried);
    drop(tried);
    put
}

/// How many of the copies, one of each moment but the first, differ from what is read of it.
fn count_different(tried: &mut Tried, copies: &[Flat]) -> Option<u32> {
    let mut different = 0u32;
    let mut moment = 0u32;
    for copy in copies {
        moment = moment.saturating_add(1);
        let then = tried.term_at(Moment(moment))?;
        if !then.same(copy) {
            different = different.saturating_add(1);
        }
        drop(then);
    }
    Some(different)
}

/// Does the row's deeds again and again, with a copy of the term behind each, and gives how many moments there are then, and
/// at how many of them the term isn't what the copy is.
fn put_different(trial: &mut Trial, tried: &mut Tried, copies: &mut Vec<Flat>) -> Option<()> {
    for _ in 0..trial.row.number(1) {
        tried.do_deeds(trial.row.given(2), copies)?;
    }
    let different = count_different(tried, copies.as_slice())?;
    trial.given.put_shown(&copies.len());
    trial.given.put(" moments, ");
    trial.given.put_shown(&different);
    trial.given.put(" differ");
    Some(())
}

/// Gives how many moments the row's deeds make, and at how many of them its term isn't what a copy is.
pub fn put_long_past(trial: &mut Trial) -> Option<()> {
    let mut tried = tried_of_row(trial)?;
    let mut copies = Vec::new(trial.alloc);
    let put = put_different(trial, &mut tried, &mut copies);
    drop(copies);
    drop(tried);
    put
}
