//! Tokens of Prolog texts (ISO/IEC 13211-1 section 6.4).
//!
//! [`tokens`] divides a text into layout, comments and tokens, each the longest at its place, or
//! tells the first fault from the left. [`content`] gives the characters that a token stands for.
//! The laws that each text has a division or a first fault, and not two, are [`every_text_divides`]
//! and [`one_division`].
#![tactic(auto)]

mod bytes;
mod found;
mod items;
mod numbers;
mod quoted;
mod runs;
mod scanner;
mod texts;

pub use apd_causes::TokenFault;
pub use bytes::{Class, Escape, NumberMark, Set, is_graphic, is_small, is_word};
pub use found::Found;
pub use items::{Token, TokenKind, Tokens};
pub use scanner::{every_text_divides, one_division, tokens};
pub use texts::{bare_name, content, one_content};
