//! Programs that do in the plainest way what the layers of texts do, however slowly, one module for each layer.
//!
//! They have no contract but safety: tables of inputs compare them with the layers. Plain programs that are proved to equal
//! a definition are those of apd_by_definition.
#![tactic(auto)]

pub mod ops;
pub mod reader;
pub mod token;
