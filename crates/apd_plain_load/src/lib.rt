//! The load of a text in the plainest way, with its grammar rules, however slowly. It has no contract but safety: tables of
//! texts compare it with the layer.
#![tactic(auto)]

pub mod load;
