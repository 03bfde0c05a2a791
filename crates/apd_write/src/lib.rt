//! Writing of terms as Prolog reads them (ISO/IEC 13211-1 section 7.10.5).
//!
//! [`write_term`] writes a term by a table of operators, a [`Pen`] many of them on a [`Sheet`],
//! [`write_name`] a name by itself.
#![tactic(auto)]

// What most terms don't have isn't inlined, so that the loop over symbols keeps in registers what it works with.

mod closing;
mod leaves;
mod names;
mod numbers;
mod opening;
mod pending;
mod sheet;
mod terms;

pub use names::write_name;
pub use sheet::Sheet;
pub use terms::{Pen, write_term};
