//! The table of operators.

ghost use Rattle.std.specs.Prelude.{◌≡◌, ◌≢◌, Ok, Err, ◌≤◌, nat_eq, IfErr, OnOk, OnErr, IfOk, IsTrue, ◌↔◌};
ghost use Rattle.std.specs.Bool.{OnTrue};
ghost use Rattle.std.specs.List.{list_any, IsDistinct};
ghost use Rattle.std.specs.Map.{keys_of};
ghost use Rattle.apd_ops.specs.Definition.{definition};
ghost use Rattle.apd_ops.specs.Standard.{standard_table};
ghost use Rattle.apd_ops.specs.Table.{prefix_in, infix_in, IsTable, IsMade, IsRefused, IsFixed, IsGiven, WouldClash, defined, clashes, clashes_unless, Sets};

use crate::op::{MOST_PRIORITY, OpFault, OpKind};
use crate::standard::{infixes, prefixes};
use apd_term::NameId;
use apd_term::standard::{BAR, BIT_NOT, COMMA, CURLY, NIL};
use indexmap::IndexMap;
use std::alloc::{AllocError, Global};
use std::marker::Model;

/// The operators that are known.
#[derive(Drop)]
pub struct Ops {
    prefixes: IndexMap<u32, (u16, OpKind)>,
    infixes: IndexMap<u32, (u16, OpKind)>,
    /// The name that a meaning was given to last.
    newest: NameId,
    /// No name with a greater number is an operator. Most names are none, and are told so without a look into the tables.
    last: u32,
}

impl Model for Ops {
    ghost use Rattle.std.specs.FinMap.{from_entries};
    ghost use Rattle.apd_ops.specs.Ending.{IsKept};
    ghost use Rattle.apd_ops.specs.Table.{Table, table_code};

    ghost Value = { Table };

    ghost coded = { table_code };

    ghost view = { λ s. record { prefixes = from_entries s.prefixes.entries; infixes = from_entries s.infixes.entries } };

    ghost invariant = { λ s. IsKept s.prefixes.entries s.infixes.entries s.last };
}

fn is_fixed(name: NameId) -> bool
    ensures { IsTrue result ↔ IsFixed name }
{
    name.0 == COMMA.0 || name.0 == BAR.0 || name.0 == NIL.0 || name.0 == CURLY.0
}

/// Whether two operators clash.
fn clashes(m: (u16, OpKind), n: (u16, OpKind)) -> bool
    ensures { result ≡ clashes m n }
{
    m.0 == n.0
        && (m.1.groups_right() && n.1.groups_left() || m.1.groups_left() && n.1.groups_right())
}

/// Whether a name has this meaning.
fn is_meaning(has: Option<(u16, OpKind)>, new: (u16, OpKind)) -> bool
    ensures { OnTrue result (has ≡ Some new) }
{
    match has {
        Some(old) => old.0 == new.0 && old.1 == new.1,
        None => false,
    }
}

/// Whether a meaning clashes with one of the map; that of the name itself counts only where it isn't to be skipped.
fn clashes_with(
    meanings: &IndexMap<u32, (u16, OpKind)>,
    skip: bool,
    name: u32,
    new: (u16, OpKind),
) -> bool
    ensures any { result ≡ list_any (clashes_unless skip name new) meanings.now.entries }
    ensures distinct { IsDistinct nat_eq (keys_of meanings.now.entries) }
{
    let _count = meanings.len();
    meanings
        .iter()
        .any(|(f, m)| !(skip && name == *f) && clashes(new, *m))
}

/// Puts the meaning of a name in place of the one that it has, or takes that away where the priority is 0.
fn set_meaning(
    meanings: &mut IndexMap<u32, (u16, OpKind)>,
    new: (u16, OpKind),
    name: u32,
) -> Result<(), AllocError>
    ensures done { OnOk result (Sets meanings.old.entries new.0 new.1 name meanings.new.entries) }
    ensures unchanged { OnErr result (meanings.new.entries ≡ meanings.old.entries) }
{
    if new.0 == 0 {
        meanings.swap_remove(&name);
        return Ok(());
    }
    meanings.insert(name, new)?;
    Ok(())
}

impl Ops {
    /// The standard operators.
    pub fn standard(alloc: Global) -> Result<Ops, AllocError>
        ensures { IfOk result (λ t. t ≡ standard_table) }
    {
        Ok(Ops {
            prefixes: prefixes(alloc)?,
            infixes: infixes(alloc)?,
            newest: COMMA,
            last: BIT_NOT.0,
        })
    }

    /// What the name means before its operand: a priority from 1 to 1200, and `Fx` or `Fy`.
    pub fn prefix(&self, name: NameId) -> Option<(u16, OpKind)>
        ensures { result ≡ prefix_in self.now name.0 }
    {
        if name.0 > self.last {
            return None;
        }
        self.prefixes.get(&name.0).copied()
    }

    /// What the name means between two operands: a priority from 1 to 1200, and `Xfx`, `Xfy` or `Yfx`.
    pub fn infix(&self, name: NameId) -> Option<(u16, OpKind)>
        ensures { result ≡ infix_in self.now name.0 }
    {
        if name.0 > self.last {
            return None;
        }
        self.infixes.get(&name.0).copied()
    }

    /// The law of the table: its meanings are of their places, and no two of them clash; the comma is an infix operator
    /// of 1000, and the bar, `[]` and `{}` are no operators.
    pub fn has_no_clash(&self)
        ensures { IsTable self.now }
    {
        let _ = &self.prefixes;
    }

    /// Whether the name that a meaning was given to last has this one; false says nothing. Then nothing clashes with it, and many
    /// names of one directive are defined without a look at the whole table for each.
    fn is_newest(&self, new: (u16, OpKind)) -> bool
        ensures { OnTrue result (IsGiven self.now new) }
    {
        is_meaning(self.prefix(self.newest), new) || is_meaning(self.infix(self.newest), new)
    }

    /// Whether after this definition two operators would clash.
    fn would_clash(&self, new: (u16, OpKind), name: NameId) -> bool
        ensures { IsTrue result ↔ WouldClash self.now new.0 new.1 name.0 }
    {
        self.has_no_clash();
        if new.0 == 0 {
            return false;
        }
        if self.is_newest(new) {
            return false;
        }
        let is_prefix = new.1.is_prefix();
        clashes_with(&self.prefixes, is_prefix, name.0, new)
            || clashes_with(&self.infixes, !is_prefix, name.0, new)
    }

    /// Gives the name this meaning in its place; priority 0 takes it away.
    fn replace(&mut self, new: (u16, OpKind), name: NameId) -> Result<(), AllocError>
        requires priority { new.0 ≤ MOST_PRIORITY }
        requires free { ¬ IsFixed name }
        requires apart { ¬ WouldClash self.old new.0 new.1 name.0 }
        ensures done { OnOk result (self.new ≡ defined self.old new.0 new.1 name.0) }
        ensures unchanged { OnErr result (self.new ≡ self.old) }
    {
        self.newest = name;
        self.last = self.last.max(name.0);
        if new.1.is_prefix() {
            set_meaning(&mut self.prefixes, new, name.0)?;
        } else {
            set_meaning(&mut self.infixes, new, name.0)?;
        }
        Ok(())
    }

    /// Makes a definition, or tells the first reason why it is refused.
    fn change(&mut self, priority: i64, kind: OpKind, name: NameId) -> Result<(), OpFault>
        ensures made { OnOk result (IsMade self.old priority kind name self.new) }
        ensures refused { IfErr result (IsRefused self.old priority kind name) }
        ensures unchanged { OnErr result (self.new ≡ self.old) }
    {
        if priority < 0 || priority > MOST_PRIORITY as i64 {
            return Err(OpFault::BadPriority);
        }
        if is_fixed(name) {
            return Err(OpFault::Fixed);
        }
        let new = (priority as u16, kind);
        if self.would_clash(new, name) {
            return Err(OpFault::Clash);
        }
        self.replace(new, name)?;
        Ok(())
    }

    /// Gives the name this meaning in place of the one that it has before its operand or between
    /// its operands, as the kind says; priority 0 takes that meaning away.
    ///
    /// `BadPriority` where the priority isn't from 0 to 1200, `Fixed` where the name is `,`, the bar,
    /// `[]` or `{}`, and `Clash` where two operators of one priority would group in different
    /// directions, the first of these that holds; then the table stays as it was.
    #[tactic(auto, using(crate::proofs::Tested::made_is, crate::proofs::Tested::refused_is))]
    pub fn define(&mut self, priority: i64, kind: OpKind, name: NameId) -> Result<(), OpFault>
        ensures defined { OnOk result (definition self.old priority kind name ≡ Ok self.new) }
        ensures refused { IfErr result (λ f. f ≢ OpFault.Memory →
            definition self.old priority kind name ≡ Err f) }
        ensures unchanged { OnErr result (self.new ≡ self.old) }
    {
        match self.change(priority, kind, name) {
            Ok(()) => Ok(()),
            Err(fault) => Err(fault),
        }
    }
}
