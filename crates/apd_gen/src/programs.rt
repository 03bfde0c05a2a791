//! The text of the program: a line for each node.

ghost use Rattle.std.specs.Prelude.{◌≡◌, ◌≤◌, ◌++◌, length, IfOk, OnOk};
ghost use Rattle.apd_base.specs.declared.limits.TheConstants.{MAX_FILE};
ghost use Rattle.apd_gen.specs.Nodes.{IsNode, IsNodeCount};
ghost use Rattle.apd_gen.specs.Programs.{name_of, below, body_of, line_of, tree_text};

use apd_base::Text;
use std::alloc::{AllocError, Global};

/// Puts a node, as an atom, at the end of a text.
fn add_name(alloc: Global, i: u32, out: &mut Text) -> Result<(), AllocError>
    ensures { OnOk result (out.new ≡ out.old ++ name_of i) }
{
    let digits = i.to_string(alloc)?;
    out.push(b'n')?;
    out.extend(digits.as_bytes())?;
    Ok(())
}

/// Puts the body of a node's clause at the end of a text.
fn add_body(alloc: Global, n: u32, i: u32, out: &mut Text) -> Result<(), AllocError>
    requires count { IsNodeCount n }
    requires node { IsNode n i }
    ensures { OnOk result (out.new ≡ out.old ++ body_of (below n i)) }
{
    let left = 2 * i;
    if left > n {
        return Ok(());
    }
    out.extend(b" :- ")?;
    add_name(alloc, left, out)?;
    if left < n {
        out.extend(b", ")?;
        add_name(alloc, left + 1, out)?;
    }
    Ok(())
}

/// Puts a node's line at the end of a text.
fn add_line(alloc: Global, n: u32, i: u32, out: &mut Text) -> Result<(), AllocError>
    requires count { IsNodeCount n }
    requires node { IsNode n i }
    ensures { OnOk result (out.new ≡ out.old ++ line_of n i) }
{
    add_name(alloc, i, out)?;
    add_body(alloc, n, i, out)?;
    out.extend(b".\n")
}

/// The program of a tree of so many nodes, from 1 to 10,000: line i has the clause of node i, whose goals are the nodes 2i and
/// 2i + 1 as far as there are such. It is no longer than a file may be. The only error is want of memory.
pub fn tree_program(alloc: Global, n: u32) -> Result<Text, AllocError>
    requires { IsNodeCount n }
    ensures text { IfOk result (λ t. t ≡ tree_text n) }
    ensures size { IfOk result (λ t. length t ≤ MAX_FILE) }
{
    let mut text = Text::new(alloc);
    'nodes: for i in 0..n {
        add_line(alloc, n, i + 1, &mut text)?;
    }
    Ok(text)
}
