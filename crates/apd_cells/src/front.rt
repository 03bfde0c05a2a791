//! A front of the cells, with what is known of its variables.

ghost use Rattle.std.specs.Prelude.{◌≡◌, ◌<◌, ◌⊎◌};

/// So many of the first cells, and a number above their variables.
#[derive(Clone, Copy)]
pub struct Front {
    pub cells: usize,
    pub variables: usize,
}

/// A front of no cells.
pub const NO_FRONT: Front = Front {
    cells: 0,
    variables: 0,
};

/// A number above the variables of the term at a cell, where so many variables are there.
pub(crate) fn above_term(front: Front, to: usize, variables: usize) -> usize
    ensures { ((to < front.cells) × (result ≡ front.variables)) ⊎ (result ≡ variables) }
{
    if to < front.cells {
        return front.variables;
    }
    variables
}
