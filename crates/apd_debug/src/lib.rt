//! How a diagnosis goes on in a conversation: its calls of an oracle are, line by line, the steps of a talker.
#![tactic(auto)]

pub mod laws;
