//! The calls of a chain.

ghost use Rattle.std.specs.Prelude.{◌≡◌, ◌<◌, get_or, length, IfOk};
ghost use Rattle.apd_term.specs.Term.{size, variable};
ghost use Rattle.apd_loop.specs.Loop.{calls_in};
ghost use Rattle.apd_loop.specs.Turning.{HasBoxes};

use apd_record::Record;
use apd_term::Flat;
use apd_term::canonical::canonical;
use std::alloc::{AllocError, Global};
use std::marker::Model;

/// The calls of the boxes of a chain in canonical form. Each is read from the record when it is asked for.
/// Contracts see their list.
#[derive(Drop)]
pub struct ChainCalls<'a> {
    alloc: Global,
    recorded: &'a Record,
    chain: &'a [u32],
}

impl<'a> Model for ChainCalls<'a> {
    ghost use Rattle.std.specs.Prelude.{List};
    ghost use Rattle.std.specs.Coded.{coded_list};
    ghost use Rattle.apd_term.specs.Term.{Term};
    ghost use Rattle.apd_term.specs.Spelling.{term_code};
    ghost use Rattle.apd_loop.specs.Loop.{calls_in};
    ghost use Rattle.apd_loop.specs.Turning.{HasBoxes};

    ghost Value = { List Term };

    ghost coded = { coded_list term_code };

    ghost view = { λ c. calls_in c.recorded.now c.chain.now };

    ghost invariant = { λ c. HasBoxes c.recorded.now c.chain.now };
}

impl<'a> ChainCalls<'a> {
    /// Those of a record's boxes.
    pub fn of(alloc: Global, recorded: &'a Record, chain: &'a [u32]) -> ChainCalls<'a>
        requires { HasBoxes recorded.now chain.now }
        ensures { result ≡ calls_in recorded.now chain.now }
    {
        ChainCalls {
            alloc,
            recorded,
            chain,
        }
    }

    /// How many there are.
    pub fn len(&self) -> usize
        ensures { result ≡ length self.now }
    {
        self.chain.len()
    }

    /// That with this number, counted from 0.
    pub fn get(&self, number: usize) -> Result<Flat, AllocError>
        requires { number < length self.now }
        ensures { IfOk result (λ a. a ≡ get_or self.now number (variable 0)) }
    {
        let recorded = self.recorded;
        let call = recorded.call_atom(self.chain[number])?;
        canonical(self.alloc, &call)
    }

    /// How many symbols that has. It is read only where the record doesn't know.
    pub fn size(&self, number: usize) -> Result<u64, AllocError>
        requires { number < length self.now }
        ensures { IfOk result (λ n. n ≡ size (get_or self.now number (variable 0))) }
    {
        let recorded = self.recorded;
        if let Some(size) = recorded.call_size(self.chain[number]) {
            return Ok(size as u64);
        }
        let call = recorded.call_atom(self.chain[number])?;
        Ok(call.size())
    }
}
