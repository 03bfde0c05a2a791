//! Cells that are never dropped, and what variables were bound to at each moment.

ghost use Rattle.std.specs.Prelude.{◌≡◌, ℕ, [], ◌<◌, ◌≤◌, ◌^◌, ◌++◌, length, get_or, IfOk, OnOk, OnErr, MatchOption};
ghost use Rattle.apd_term.specs.declared.term.Sym.TheVariants.{Var};
ghost use Rattle.apd_term.specs.Term.{IsTerms};
ghost use Rattle.apd_cells.specs.declared.heap.Binding.TheVariants.{Free, At};
ghost use Rattle.apd_cells.specs.Store.{term_at, binding_of, bound, MayBind, IsSound};
ghost use Rattle.apd_past.specs.History.{at_moment, history_of, present, unbound, with_done, with_terms, IsRightHistory};

use crate::journal::Journal;
use apd_base::room::room_for;
use apd_term::Sym;
use std::alloc::{AllocError, Global};
use std::marker::Model;

/// A cell of a past, in 32 bits.
#[derive(Clone, Copy)]
pub struct PastCell(pub u32);

/// A moment of a past: how often a variable had been bound or freed.
#[derive(Clone, Copy)]
pub struct Moment(pub u32);

/// Terms in cells, and what was done to their variables. Nothing is ever dropped: what a term was at
/// a moment can be read at any later time. Where a call answers an error, it is want of memory, or
/// there would be 2 ^ 32 cells, variables or moments.
#[derive(Drop)]
pub struct Past {
    cells: Vec<Sym>,
    journal: Journal,
}

impl Model for Past {
    ghost use Rattle.apd_past.specs.History.{History, history_code, history_of, IsRightHistory};

    ghost Value = { History };

    ghost coded = { history_code };

    ghost view = { λ p. history_of p.cells.items p.journal };

    ghost invariant = { λ p. IsRightHistory (history_of p.cells.items p.journal) };
}

/// The greatest number that is kept.
pub(crate) const MOST: u64 = 4_294_967_294;

/// The number as it is kept; want of memory where it is too great.
pub(crate) fn narrow(n: u64) -> Result<u32, AllocError>
    ensures number { IfOk result (λ k. k ≡ n) }
    ensures small { IfOk result (λ k. k ≤ MOST) }
{
    if n > MOST {
        return Err(AllocError);
    }
    Ok(n as u32)
}

/// Puts symbols behind the others.
fn extend(cells: &mut Vec<Sym>, symbols: &[Sym]) -> Result<(), AllocError>
    ensures ok { OnOk result (cells.new.items ≡ cells.old.items ++ symbols.now) }
    ensures err { OnErr result (cells.new.items ≡ cells.old.items) }
{
    room_for(cells, symbols.len())?;
    for symbol in symbols {
        cells.push_reserved(*symbol);
    }
    Ok(())
}

impl Past {
    /// No term.
    pub fn new(alloc: Global) -> Past
        ensures { result ≡ record { cells = []; variables = 0; moments = 0; spans = [] } }
    {
        Past {
            cells: Vec::new(alloc),
            journal: Journal::new(alloc),
        }
    }

    /// The past of these cells, with what was done to their variables.
    pub fn of(cells: Vec<Sym>, journal: Journal) -> Past
        requires { IsRightHistory (history_of cells.items journal) }
        ensures { result ≡ history_of cells.items journal }
    {
        Past { cells, journal }
    }

    /// How many cells there are.
    pub fn cells(&self) -> usize
        ensures { result ≡ length self.now.cells }
    {
        self.cells.len()
    }

    /// How many variables there are: a number above those of all terms.
    pub fn variables(&self) -> usize
        ensures { result ≡ self.now.variables }
    {
        self.journal.variables()
    }

    /// The present moment.
    pub fn moment(&self) -> Moment
        ensures moment { result.0 ≡ self.now.moments }
        ensures present { at_moment result.0 self.now ≡ present self.now }
    {
        self.journal.moment()
    }

    /// The past is a sound store, at each moment.
    pub fn is_sound(&self)
        ensures moments { (m : ℕ) → IsSound (at_moment m self.now) }
        ensures present { IsSound (present self.now) }
    {
        let _cells = &self.cells;
    }

    /// The symbol at a cell.
    pub fn symbol(&self, at: usize) -> Sym
        requires { at < length self.now.cells }
        ensures symbol { result ≡ get_or self.now.cells at (Var 0) }
        ensures store { (m : ℕ) → IsSound (at_moment m self.now) }
        ensures fits { length self.now.cells < 2 ^ 64 }
    {
        self.cells[at]
    }

    /// The cell that a variable was bound to at a moment; none exactly where it was free.
    pub fn bound_at(&self, moment: Moment, v: u64) -> Option<u32>
        ensures { MatchOption result
            (binding_of (at_moment moment.0 self.now).trail v ≡ Free)
            (λ c. binding_of (at_moment moment.0 self.now).trail v ≡ At c) }
    {
        self.journal.to_at(moment, v)
    }

    /// Puts whole terms behind the others, and tells the cell of the first. All other cells keep
    /// their terms, at each moment. After want of memory there may be more variables.
    pub fn load(&mut self, symbols: &[Sym]) -> Result<PastCell, AllocError>
        requires { IsTerms symbols.now }
        ensures cell { IfOk result (λ c. c.0 ≡ length self.old.cells) }
        ensures ok { OnOk result (self.new ≡ with_terms self.old symbols.now) }
        ensures others { (m c : ℕ) → c < length self.old.cells →
            term_at (at_moment m self.new) c ≡ term_at (at_moment m self.old) c }
        ensures moments { self.new.moments ≡ self.old.moments }
        ensures spans { self.new.spans ≡ self.old.spans }
        ensures err { OnErr result (self.new.cells ≡ self.old.cells) }
    {
        let cell = narrow(self.cells.len() as u64)?;
        self.journal.add_variables(symbols)?;
        extend(&mut self.cells, symbols)?;
        Ok(PastCell(cell))
    }

    /// Binds a free variable to the term at a cell. Earlier moments stay as they are.
    pub fn bind(&mut self, v: u64, to: PastCell) -> Result<(), AllocError>
        requires { MayBind self.old.cells self.old.variables (present self.old).trail v to.0 }
        ensures ok { OnOk result (self.new ≡ with_done self.old v to.0) }
        ensures present { OnOk result (present self.new ≡ bound (present self.old) v to.0) }
        ensures earlier { (m : ℕ) → m ≤ self.old.moments →
            at_moment m self.new ≡ at_moment m self.old }
        ensures err { OnErr result (self.new ≡ self.old) }
    {
        self.journal.bind(v, to.0 as usize)?;
        Ok(())
    }

    /// Frees the variable that was bound last, if one is bound. Earlier moments stay as they are.
    pub fn unbind(&mut self) -> Result<(), AllocError>
        ensures present { OnOk result (present self.new ≡ unbound (present self.old)) }
        ensures longer { self.old.moments ≤ self.new.moments }
        ensures earlier { (m : ℕ) → m ≤ self.old.moments →
            at_moment m self.new ≡ at_moment m self.old }
        ensures err { OnErr result (self.new ≡ self.old) }
    {
        self.journal.unbind()?;
        Ok(())
    }
}
