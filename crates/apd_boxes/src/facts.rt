//! What is told of a box in one number.

ghost use Rattle.std.specs.Prelude.{◌≡◌, ◌<◌, ◌≤◌, ◌^◌, if◌then◌else◌};
ghost use Rattle.apd_boxes.specs.Ports.{number_of_port, port_of_number};
ghost use Rattle.apd_boxes.specs.Facts.{called_facts, one_more, passed_facts};

use apd_ports::Port;
use std::marker::Model;

/// The parts of the number, from the least on: the port that was passed last, whether the box is complete, how many exits it
/// has, whether it is the program's, whether its call is whole elsewhere, and the size of its goal.
const COMPLETE: u32 = 4;

const ONE_EXIT: u32 = 8;

const IS_USER: u32 = 32;

const IS_WHOLE: u32 = 64;

const ONE_SYMBOL: u32 = 128;

/// What stands before the exits where a box failed.
const FAILED: u32 = 7;

/// The greatest size that there is room for.
pub const MOST_SYMBOLS: u32 = 33_554_431;

/// The port with this number.
fn port_with(number: u32) -> Port
    ensures { result ≡ port_of_number number }
{
    match number {
        0 => Port::Call,
        1 => Port::Exit,
        2 => Port::Redo,
        _ => Port::Fail,
    }
}

/// The number of a port.
fn number_of(port: Port) -> u32
    ensures number { result ≡ number_of_port port }
    ensures most { result < 4 }
{
    match port {
        Port::Call => 0,
        Port::Exit => 1,
        Port::Redo => 2,
        Port::Fail => 3,
    }
}

/// A part where something is so.
fn part_if(so: bool, part: u32) -> u32
    ensures part { result ≡ if so then part else 0 }
    ensures most { result ≤ part }
{
    if so { part } else { 0 }
}

/// What is told of a box beside its point and its exits. Contracts see it.
#[derive(Drop)]
pub struct PackedFacts {
    raw: u32,
}

impl Model for PackedFacts {
    ghost use Rattle.apd_boxes.specs.Facts.{facts_in, Facts};

    ghost Value = { Facts };

    ghost view = { λ f. facts_in f.raw };
}

impl PackedFacts {
    /// Of a box that was just called.
    #[inline(always)]
    pub fn called(size: u32, is_user: bool, is_whole: bool) -> PackedFacts
        requires { size < 2 ^ 25 }
        ensures { result ≡ called_facts size is_user is_whole }
    {
        let user = part_if(is_user, IS_USER);
        let whole = part_if(is_whole, IS_WHOLE);
        PackedFacts {
            raw: size * ONE_SYMBOL + user + whole,
        }
    }

    /// How many symbols its goal has, or 0 where that isn't known.
    pub fn size(&self) -> u32
        ensures { result ≡ self.now.size }
    {
        self.raw / ONE_SYMBOL
    }

    /// Whether its call is kept whole elsewhere.
    #[inline(always)]
    pub fn is_whole(&self) -> bool
        ensures { result ≡ self.now.is_whole }
    {
        self.raw / IS_WHOLE % 2 == 1
    }

    /// Whether its goal is one of the program's.
    pub fn is_user(&self) -> bool
        ensures { result ≡ self.now.is_user }
    {
        self.raw / IS_USER % 2 == 1
    }

    /// How many exits it has: none, one, or 2 for several.
    #[inline(always)]
    pub fn exits(&self) -> u32
        ensures { result ≡ self.now.exits }
    {
        self.raw / ONE_EXIT % 4
    }

    /// Whether it was searched to its end.
    #[inline(always)]
    pub fn is_complete(&self) -> bool
        ensures { result ≡ self.now.complete }
    {
        self.raw / COMPLETE % 2 == 1
    }

    /// The port that it passed last.
    pub fn last(&self) -> Port
        ensures { result ≡ self.now.last }
    {
        port_with(self.raw % COMPLETE)
    }

    /// It passes a port.
    #[inline(always)]
    pub fn pass(&mut self, port: Port)
        ensures { self.new ≡ passed_facts port self.old }
    {
        let number = number_of(port);
        if number == 3 {
            self.raw = self.raw / ONE_EXIT * ONE_EXIT + FAILED;
            return;
        }
        self.raw = self.raw / COMPLETE * COMPLETE + number;
    }

    /// It has one more exit.
    #[inline(always)]
    pub fn add_exit(&mut self)
        requires { self.old.exits < 2 }
        ensures { self.new ≡ one_more self.old }
    {
        self.raw += ONE_EXIT;
    }
}
