//! Rows of tables: how they are read, what they are tried with, and what is said of them.
//!
//! A program has tables, each about a call. A row has what the call is given and what is wanted of it; the program's
//! [`Tables`] give the call's answer as a text, and [`try_tables`] compares the two.
#![tactic(auto)]

mod builder;
mod driver;
mod first;
mod operators;
mod rows;
mod scene;
mod trial;

pub use builder::Builder;
pub use driver::{Tables, try_tables};
pub use first::{First, Unread};
pub use rows::{BETWEEN, Row, texts_of};
pub use scene::{MOST_ROW_NAMES, Scene};
pub use trial::{Sides, Trial};
