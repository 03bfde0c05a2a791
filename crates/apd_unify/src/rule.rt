//! What the textbook's rules make of an equation (Robinson 1965; Martelli and Montanari 1982).

use apd_term::term::Flat;

/// The rule that solves an equation, or that refuses it.
#[derive(Drop)]
pub enum Rule {
    /// The sides are equal.
    Delete,
    /// The sides have one name with equally many arguments.
    Decompose,
    /// The sides have different names, different numbers of arguments or different integers.
    Clash,
    /// A variable against a term that properly contains it.
    Cycle,
    /// A variable against a term without it.
    Eliminate(u64, Flat),
}
