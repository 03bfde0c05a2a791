//! The parts of a text: its lines, what stands before and behind some bytes, numbers, and what stands between quotes.
#![tactic(auto)]

mod boxes;
mod lines;
mod parts;

pub use boxes::{Boxed, Quote, box_first, box_outside, boxed_in, quote_after, word_begins};
pub use lines::{FirstLine, first_line};
pub use parts::{
    FrontAndRest, Led, Tagged, after, before, counted, cut, cut_last, led_by, number_32, number_64,
};
