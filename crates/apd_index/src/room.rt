//! Room for what is noted of many atoms at once, so that tables seldom grow while they are noted.

ghost use Rattle.apd_index.specs.Table.{AreSame};

use crate::large::LARGE;
use crate::walk::Table;
use apd_skips::KeptAtoms;

/// So many links each atom gets beside those of its symbols.
const FOR_ALL: usize = 2;

/// Makes room for the atoms at these places, as far as there is memory for it. Where symbols have nodes of their own, those are some half of
/// them, since their constants aren't noted. The contract says that nothing else changes.
pub(crate) fn make_room(table: &mut Table, atoms: &KeptAtoms, places: &[usize])
    ensures { AreSame table.old table.new }
{
    let mut count: usize = 0;
    'places: for place in places {
        let size = match atoms.get(*place) {
            Some(kept) => kept.atom().symbols().len(),
            None => 0,
        };
        if size <= LARGE {
            count = count.saturating_add(size.saturating_add(FOR_ALL));
        }
    }
    let _nodes = table.nodes.nodes.reserve(count / 2);
    let _links = table.nodes.links.reserve(count);
    if table.is_given_up {
        return;
    }
    let _heads = table.columns.heads.reserve(count);
    let _entries = table.columns.entries.reserve(count);
}
