//! Terms without variables, as they were at a moment: seen with no memory, where no binding led to a term with arguments.

ghost use Rattle.std.specs.Prelude.{◌≡◌, [], ◌∷◌, ◌<◌, length, IfSome};
ghost use Rattle.std.specs.Bool.{OnTrue};
ghost use Rattle.apd_term.specs.Term.{variables};
ghost use Rattle.apd_cells.specs.Store.{term_at};
ghost use Rattle.apd_cells.specs.Work.{AreRuns};
ghost use Rattle.apd_past.specs.Ground.{HasFixedArity, PassesFixed};

use crate::past::PastCell;
use crate::then::Then;
use apd_cells::walk::Run;
use apd_term::Sym;

/// How many terms stand under a symbol; none where it is a variable.
fn fixed_arity(symbol: Sym) -> Option<usize>
    ensures { IfSome result (HasFixedArity symbol) }
{
    match symbol {
        Sym::Var(_) => None,
        Sym::Int(_) => Some(0),
        Sym::Fun(_, arity) => Some(arity as usize),
    }
}

/// Passes the first symbol of a run, where a variable is written; none where it wasn't bound, or led to a term with arguments.
fn pass_bound(then: &Then<'_>, here: Run) -> Option<Run>
    requires right { AreRuns then.now.cells (here ∷ []) }
    requires some { 0 < here.left }
    ensures { IfSome result (PassesFixed then.now here) }
{
    let at = then.follow(here.at);
    let symbol = then.symbol(at);
    let arity = fixed_arity(symbol)?;
    if arity > 0 {
        return None;
    }
    Some(Run {
        at: here.at + 1,
        left: here.left - 1,
    })
}

/// Passes the first symbol of a run, behind the bindings; none where it is a variable, or where a binding led to a term
/// with arguments.
fn pass_fixed(then: &Then<'_>, here: Run) -> Option<Run>
    requires right { AreRuns then.now.cells (here ∷ []) }
    requires some { 0 < here.left }
    ensures { IfSome result (PassesFixed then.now here) }
{
    let symbol = then.symbol(here.at);
    let Some(arity) = fixed_arity(symbol) else {
        return pass_bound(then, here);
    };
    Some(Run {
        at: here.at + 1,
        left: here.left - 1 + arity,
    })
}

impl<'a> Then<'a> {
    /// Whether it is seen that no variable stands in the term at a cell. False says nothing: what a binding led to isn't looked
    /// through where it has arguments.
    pub fn is_seen_ground(&self, cell: PastCell) -> bool
        requires { cell.0 < length self.now.cells }
        ensures { OnTrue result (variables (term_at self.now cell.0) ≡ []) }
    {
        let mut here = Run {
            at: cell.0 as usize,
            left: 1,
        };
        'symbols: while here.left > 0 {
            match pass_fixed(self, here) {
                None => return false,
                Some(next) => here = next,
            }
        }
        true
    }
}
