//! Texts and terms that are drawn.

ghost use Rattle.std.specs.Prelude.{◌<◌};

use crate::spelled::{arity_of, symbol_of};
use apd_rows::{Builder, Scene};
use apd_term::Sym;
use std::alloc::{AllocError, Global};

/// Tokens of which texts are drawn, with the layout before them.
const TOKENS: [&str; 32] = [
    "a", " a", " f", "'b'", "1", " 1", "X", "_", "\"c\"", "(", "(", " (", ")", ")", "[", "]", "[]",
    "{", "}", "{}", ",", ",", "|", "-", " - ", "'-'", " = ", "\\+ ", " :- ", " ^ ", "**", ". ",
];

/// Operators and operands of which items are drawn.
const PREFIXES: [&str; 6] = ["- ", "\\+ ", "\\ ", ":- ", "?- ", "dynamic "];

const INFIXES: [&str; 14] = [
    " :- ", " ; ", " -> ", ", ", " = ", " is ", " - ", " + ", " * ", " mod ", " ** ", " ^ ",
    " \\+ ", " true ",
];

const OPERANDS: [&str; 16] = [
    "a", "b", "X", "1", "-1", "\"c\"", "'d'", "(a = b)", "(a :- b)", "[a, b|c]", "[]", "f(-, a)",
    "{a :- b}", "(-)", "- ", "(\\+)",
];

/// Operators of each kind and priority of the standard, and others; names in functional notation;
/// brackets.
pub const FUNCTIONS: [&str; 36] = [
    ":-/1",
    "dynamic/1",
    "\\+/1",
    "-/1",
    ":-/2",
    ";/2",
    "->/2",
    ",/2",
    "=/2",
    "+/2",
    "-/2",
    "mod/2",
    "**/2",
    "^/2",
    "It's/1",
    "Is bigger/2",
    "yfx/2",
    "fx/1",
    "!/1",
    "/2",
    "dynamic/2",
    "\\+/2",
    "=/1",
    ",/1",
    "|/2",
    "It's/2",
    "Is bigger/1",
    "f/1",
    "f/3",
    "[]/1",
    "{}/1",
    "{}/2",
    "{}/3",
    "./1",
    "./2",
    "./3",
];

/// Names of each form and operators as atoms.
const ATOMS: [&str; 25] = [
    "a/0",
    "aB_9/0",
    "[]/0",
    "{}/0",
    "-/0",
    "+/0",
    "=/0",
    "\\+/0",
    ":-/0",
    "dynamic/0",
    "mod/0",
    ",/0",
    "|/0",
    "./0",
    "!/0",
    ";/0",
    "/*/0",
    "/0",
    "It's/0",
    "Is bigger/0",
    "yfx/0",
    "fx/0",
    "a\\'\n\t\r\0\x01\x1f\x7f\"`b/0",
    "\u{e9}\u{20ac}\u{1f600}/0",
    "X/0",
];

const INTEGERS: [i64; 6] = [0, 1, -1, 10, i64::MAX, i64::MIN];

/// The front of a term that is drawn.
#[derive(Drop)]
struct Drawn {
    symbols: Vec<Sym>,
    /// How many terms are wanted behind it.
    pending: usize,
    /// The greatest variable so far.
    variables: u64,
}

impl Drawn {
    fn push(&mut self, symbol: Sym) -> Result<(), AllocError> {
        let arguments = arity_of(symbol) as usize;
        self.pending = self.pending.saturating_sub(1).saturating_add(arguments);
        self.symbols.push(symbol)?;
        Ok(())
    }
}

/// A source of numbers that look random.
#[derive(Drop)]
pub struct Draw {
    seed: u64,
}

impl Draw {
    pub fn new(seed: u64) -> Draw {
        Draw { seed }
    }

    fn below(&mut self, n: usize) -> usize
        requires { 0 < n }
        ensures { result < n }
    {
        self.seed = self
            .seed
            .wrapping_mul(6364136223846793005)
            .wrapping_add(1442695040888963407);
        (self.seed >> 33) as usize % n
    }

    /// One of the choices; none where there are none.
    fn pick<T: Copy>(&mut self, choices: &[T]) -> Option<T> {
        if choices.is_empty() {
            return None;
        }
        let place = self.below(choices.len());
        choices.get(place).copied()
    }

    fn put(&mut self, text: &mut Builder, choices: &[&'static str]) {
        text.put(self.pick(choices).unwrap_or(""));
    }

    /// At most 11 tokens and a full stop.
    pub fn text(&mut self, alloc: Global) -> Builder {
        let mut text = Builder::new(alloc);
        for _ in 0..self.below(12) {
            self.put(&mut text, &TOKENS);
        }
        text.put(" .");
        text
    }

    /// A prefix operator, or an operand with an infix operator behind it.
    fn put_step(&mut self, text: &mut Builder) {
        if self.below(3) == 0 {
            return self.put(text, &PREFIXES);
        }
        self.put(text, &OPERANDS);
        self.put(text, &INFIXES);
    }

    /// At most 9 operators with their operands, by no priority, and a full stop.
    pub fn item(&mut self, alloc: Global) -> Builder {
        let mut text = Builder::new(alloc);
        for _ in 0..self.below(10) {
            self.put_step(&mut text);
        }
        self.put(&mut text, &OPERANDS);
        text.put(" .");
        text
    }

    /// A variable; a new one has the number behind the greatest so far.
    fn variable(&mut self, variables: &mut u64) -> Sym {
        let v = self.below(4) as u64 + 1;
        if v > *variables {
            *variables = variables.saturating_add(1);
            return Sym::Var(*variables);
        }
        Sym::Var(v)
    }

    /// A symbol without arguments.
    fn leaf(&mut self, scene: &mut Scene, variables: &mut u64) -> Option<Sym> {
        match self.below(4) {
            0 => Some(self.variable(variables)),
            1 => Some(Sym::Int(self.pick(&INTEGERS).unwrap_or(0))),
            _ => symbol_of(scene, self.pick(&ATOMS).unwrap_or("a")),
        }
    }

    /// A symbol, more often than not with arguments.
    fn symbol(&mut self, scene: &mut Scene, variables: &mut u64) -> Option<Sym> {
        if self.below(3) > 0 {
            return symbol_of(scene, self.pick(&FUNCTIONS).unwrap_or("f/1"));
        }
        self.leaf(scene, variables)
    }

    /// The symbols of a term whose front was drawn.
    fn end(&mut self, scene: &mut Scene, drawn: Drawn) -> Option<Vec<Sym>> {
        let Drawn {
            mut symbols,
            pending,
            mut variables,
        } = drawn;
        for _ in 0..pending {
            let leaf = self.leaf(scene, &mut variables)?;
            symbols.push(leaf).ok()?;
        }
        Some(symbols)
    }

    /// The symbols of a term, of which at most `most` take arguments.
    pub fn term(&mut self, alloc: Global, scene: &mut Scene, most: usize) -> Option<Vec<Sym>> {
        let mut drawn = Drawn {
            symbols: Vec::new(alloc),
            pending: 1,
            variables: 0,
        };
        for _ in 0..most {
            if drawn.pending == 0 {
                break;
            }
            let symbol = self.symbol(scene, &mut drawn.variables)?;
            drawn.push(symbol).ok()?;
        }
        self.end(scene, drawn)
    }
}
