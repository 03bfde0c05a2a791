//! The nodes of the tree: which one is wrong, and which of them aren't true therefore.

ghost use Rattle.std.specs.Prelude.{◌≡◌, ◌*◌, ◌+◌, ◌/◌, ◌≤◌};
ghost use Rattle.std.specs.Bool.{OnFalse, OnTrue};
ghost use Rattle.apd_gen.specs.Nodes.{IsNode, IsNodeCount, IsReached, is_true_node, wrong_node};

/// The most nodes that a tree may have.
pub const MOST_NODES: u32 = 10_000;

/// The node that is wrong, of so many.
pub fn wrong_node(n: u32) -> u32
    requires { IsNodeCount n }
    ensures number { result ≡ 7 * n / 10 + 1 }
    ensures node { IsNode n result }
{
    7 * n / 10 + 1
}

/// Whether a node of so many is true: it isn't where it is the wrong one, or stands above it.
pub fn node_true(n: u32, i: u32) -> bool
    requires count { IsNodeCount n }
    requires node { IsNode n i }
    ensures test { result ≡ is_true_node n i }
    ensures wrong { OnFalse result (IsReached i (wrong_node n)) }
    ensures right { OnTrue result (¬ IsReached i (wrong_node n)) }
{
    let mut at = wrong_node(n);
    'halvings: while at > i {
        at /= 2;
    }
    at != i
}
