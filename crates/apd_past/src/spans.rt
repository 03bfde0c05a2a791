//! Bindings of variables, and what each variable was bound to at a moment.

ghost use Rattle.std.specs.Prelude.{◌≡◌, ◌≢◌, ℕ, ◌<◌, ◌≤◌, ◌-◌, ◌^◌, [], length, get_or, Some, None, OnOk, OnErr};
ghost use Rattle.std.specs.List.{flat_map};
ghost use Rattle.apd_term.specs.Spelling.{variable_in};
ghost use Rattle.apd_past.specs.Done.{cell_at, to_of, with_freed, with_room, with_span, with_variable, with_variables};
ghost use Rattle.apd_past.specs.Linked.{before_of, ended_at, span_of, variable_by, variables_of};
ghost use Rattle.apd_past.specs.Linked.{AreLinked, GoesBack, HaveWays, IsEarlier, IsNewest, IsNewestAt};

use crate::maybe_number::MaybeNumber;
use apd_base::room::room_for_one;
use apd_term::Sym;
use std::alloc::{AllocError, Global};
use std::marker::Model;
use std::mem::size_of;

/// A binding as it is kept. Its ways lead to earlier ones of its variable, mostly as in a skew-binary stack (Myers 1983), so
/// that an early one is reached in few steps.
#[derive(Drop)]
pub struct KeptSpan {
    /// The cell to which the variable was bound.
    pub cell: u32,
    /// The last moment before that.
    pub from: u32,
    /// The last moment of it; none where it is bound still.
    pub until: MaybeNumber,
    /// The place of the one before it; of the first one the variable itself.
    pub way: u32,
    /// The place of that one or of one further back; none where this is the first one.
    pub jump: MaybeNumber,
}

const _: () = prove!(size_of::<KeptSpan>() == 20);

/// The bindings of variables. Contracts see them, the newest first, with a number above the variables, and how often one was
/// bound or freed.
#[derive(Drop)]
pub struct Spans {
    /// The oldest first.
    kept: Vec<KeptSpan>,
    /// The newest of each variable.
    newest: Vec<MaybeNumber>,
    moments: u32,
}

impl Model for Spans {
    ghost use Rattle.std.specs.Prelude.{length, reverse};
    ghost use Rattle.apd_past.specs.Done.{Done, done_code};

    ghost Value = { Done };

    ghost coded = { done_code };

    ghost use Rattle.apd_past.specs.Linked.{spans_of, AreLinked};

    ghost view = { λ s. record { variables = length s.newest.items; moments = s.moments; spans = reverse (spans_of s.kept.items) } };

    ghost invariant = { λ s. AreLinked s.kept.items s.newest.items s.moments };
}

/// So many moments are counted at most.
const MOST: u32 = 4_294_967_295;

/// The way further back for a binding that comes after the one at this place, of its variable. It leads over two ways in one
/// where the farther one is at most twice as long.
fn jump_over(kept: &[KeptSpan], at: u32) -> MaybeNumber
    requires there { at < length kept.now }
    requires room { at < 2 ^ 32 - 1 }
    requires ways { HaveWays kept.now }
    ensures some { result ≢ None }
    ensures earlier { IsEarlier (variables_of kept.now)
        (get_or (variables_of kept.now) at 0) (length kept.now) result }
{
    let Some(middle) = kept[at as usize].jump.get() else {
        return MaybeNumber::at(at);
    };
    let Some(far) = kept[middle as usize].jump.get() else {
        return MaybeNumber::at(at);
    };
    if middle as u64 * 3 <= at as u64 * 2 + far as u64 {
        return MaybeNumber::at(far);
    }
    MaybeNumber::at(at)
}

/// A binding after the one at this place, of its variable, or the first one of it.
fn kept_after(
    kept: &[KeptSpan],
    variable: u32,
    cell: u32,
    from: u32,
    before: MaybeNumber,
) -> KeptSpan
    requires newest { IsNewest (variables_of kept.now) variable (length kept.now) before }
    requires room { length kept.now < 2 ^ 32 - 1 }
    requires ways { HaveWays kept.now }
    ensures span { span_of variable result
        ≡ record { variable = variable; cell = cell; from = from; until = None } }
    ensures variable { variable_by result.jump result.way (variables_of kept.now) ≡ variable }
    ensures before { before_of result ≡ before }
    ensures jump { IsEarlier (variables_of kept.now) variable (length kept.now) result.jump }
{
    match before.get() {
        None => KeptSpan {
            cell,
            from,
            until: MaybeNumber::none(),
            way: variable,
            jump: MaybeNumber::none(),
        },
        Some(at) => KeptSpan {
            cell,
            from,
            until: MaybeNumber::none(),
            way: at,
            jump: jump_over(kept, at),
        },
    }
}

/// The place of an earlier binding of the same variable: further back where that one wasn't made before the moment.
fn way_back(kept: &[KeptSpan], span: &KeptSpan, moment: u32) -> Option<u32>
    requires { (far : ℕ) → span.now.jump ≡ Some far → far < length kept.now }
    ensures { GoesBack kept.now span.now moment result }
{
    let far = span.jump.get()?;
    if kept[far as usize].from >= moment {
        return Some(far);
    }
    Some(span.way)
}

/// The place of the newest binding of a variable of those that were made before a moment.
fn place_at(kept: &[KeptSpan], newest: &[MaybeNumber], v: u64, moment: u32) -> Option<u32>
    requires { (n : ℕ) × AreLinked kept.now newest.now n }
    ensures { IsNewestAt kept.now v moment result }
{
    if v as usize >= newest.len() {
        return None;
    }
    let mut next = newest[v as usize].get();
    'spans: while let Some(at) = next {
        let span = &kept[at as usize];
        if span.from < moment {
            return Some(at);
        }
        next = way_back(kept, span, moment);
    }
    None
}

/// The binding at a place ends behind a moment, where a place is given.
fn end_at(kept: &mut Vec<KeptSpan>, at: Option<u32>, moment: u32)
    requires there { (i : ℕ) → at ≡ Some i → i < length kept.old.items }
    requires room { moment < 2 ^ 32 - 1 }
    ensures { kept.new.items ≡ ended_at at moment kept.old.items }
{
    match at {
        None => {}
        Some(at) => {
            let span = &mut kept[at as usize];
            span.until = MaybeNumber::at(moment);
        }
    }
}

/// The cell to which a binding leads still at a moment.
fn cell_of(span: &KeptSpan, moment: u32) -> Option<u32>
    ensures { result ≡ cell_at moment (span_of 0 span.now) }
{
    match span.until.get() {
        Some(until) if until < moment => None,
        _ => Some(span.cell),
    }
}

impl Spans {
    /// No variable.
    pub fn new(alloc: Global) -> Spans
        ensures { result ≡ record { variables = 0; moments = 0; spans = [] } }
    {
        Spans {
            kept: Vec::new(alloc),
            newest: Vec::new(alloc),
            moments: 0,
        }
    }

    /// How often a variable was bound or freed.
    pub fn moments(&self) -> u32
        ensures { result ≡ self.now.moments }
    {
        self.moments
    }

    /// How many variables there are.
    pub fn variables(&self) -> usize
        ensures { result ≡ self.now.variables }
    {
        self.newest.len()
    }

    /// Makes room for a variable and all below it.
    pub fn add_variable(&mut self, v: u64) -> Result<(), AllocError>
        ensures ok { OnOk result (self.new ≡ with_variable self.old v) }
        ensures moments { self.new.moments ≡ self.old.moments }
        ensures spans { self.new.spans ≡ self.old.spans }
        ensures more { self.old.variables ≤ self.new.variables }
    {
        let v = v as usize;
        'variables: while self.newest.len() <= v {
            room_for_one(&mut self.newest)?;
            self.newest.push_reserved(MaybeNumber::none());
        }
        Ok(())
    }

    /// Makes room for so many variables.
    pub fn make_room(&mut self, count: usize) -> Result<(), AllocError>
        ensures ok { OnOk result (self.new ≡ with_room self.old count) }
        ensures moments { self.new.moments ≡ self.old.moments }
        ensures spans { self.new.spans ≡ self.old.spans }
        ensures more { self.old.variables ≤ self.new.variables }
    {
        'variables: while self.newest.len() < count {
            room_for_one(&mut self.newest)?;
            self.newest.push_reserved(MaybeNumber::none());
        }
        Ok(())
    }

    /// Makes room for the variable that a symbol is, if it is one, and for all below it.
    fn add_variable_of(&mut self, symbol: Sym) -> Result<(), AllocError>
        ensures ok { OnOk result (self.new ≡ with_variables self.old (variable_in symbol)) }
        ensures moments { self.new.moments ≡ self.old.moments }
        ensures spans { self.new.spans ≡ self.old.spans }
        ensures more { self.old.variables ≤ self.new.variables }
    {
        match symbol {
            Sym::Var(v) => self.add_variable(v),
            _ => Ok(()),
        }
    }

    /// Makes room for the variables of symbols, and for all below them.
    pub fn add_variables(&mut self, symbols: &[Sym]) -> Result<(), AllocError>
        ensures ok { OnOk result
            (self.new ≡ with_variables self.old (flat_map variable_in symbols.now)) }
        ensures moments { self.new.moments ≡ self.old.moments }
        ensures spans { self.new.spans ≡ self.old.spans }
        ensures more { self.old.variables ≤ self.new.variables }
    {
        for symbol in symbols {
            self.add_variable_of(*symbol)?;
        }
        Ok(())
    }

    /// A variable is bound to a cell. Want of memory too where there would be 2 ^ 32 moments, here and below; nothing has
    /// changed then.
    pub fn bind(&mut self, variable: u32, cell: u32) -> Result<(), AllocError>
        requires { variable < self.old.variables }
        ensures ok { OnOk result (self.new ≡ with_span self.old variable cell) }
        ensures err { OnErr result (self.new ≡ self.old) }
    {
        if self.moments >= MOST {
            return Err(AllocError);
        }
        room_for_one(&mut self.kept)?;
        let place = self.kept.len();
        let newest = &mut self.newest[variable as usize];
        let before = std::mem::replace(newest, MaybeNumber::at(place as u32));
        let span = kept_after(self.kept.as_slice(), variable, cell, self.moments, before);
        self.kept.push_reserved(span);
        self.moments += 1;
        Ok(())
    }

    /// A variable is freed: the newest of its bindings ends.
    pub fn free(&mut self, variable: u32) -> Result<(), AllocError>
        requires { variable < self.old.variables }
        ensures ok { OnOk result (self.new ≡ with_freed self.old variable) }
        ensures err { OnErr result (self.new ≡ self.old) }
    {
        if self.moments >= MOST {
            return Err(AllocError);
        }
        let at = self.newest[variable as usize].get();
        end_at(&mut self.kept, at, self.moments);
        self.moments += 1;
        Ok(())
    }

    /// The cell to which a variable was bound at a moment; none where it was free.
    pub fn to_at(&self, v: u64, moment: u32) -> Option<u32>
        ensures { result ≡ to_of moment self.now.spans v }
    {
        let at = place_at(self.kept.as_slice(), self.newest.as_slice(), v, moment)?;
        cell_of(&self.kept[at as usize], moment)
    }
}
