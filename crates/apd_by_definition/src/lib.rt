//! Programs that compute definitions in the plainest way, however slowly, one module for each layer.
//!
//! They are proved to equal the definition that the layer's call is proved to equal, so one case each shows that they can be
//! run. Plain programs without such a contract, which tables compare with the layers, are those of apd_plain.
#![tactic(auto)]

pub mod arith;
pub mod clauses;
pub mod console;
pub mod engine;
pub mod term;
pub mod text;
pub mod unify;
