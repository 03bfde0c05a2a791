//! What a plain search makes: its items in order, and how many boxes and points.

ghost use Rattle.std.specs.Prelude.{◌≡◌, ◌++◌, length, IfOk};
ghost use Rattle.apd_trace.specs.Trace.{Out, nothing, emit, and_then, up_to_error};
ghost use Rattle.apd_by_definition.specs.Searched.{Makes, is_error, out_of};

use apd_trace::Item;
use std::alloc::{AllocError, Global};
use std::collections::VecDeque;

/// How many boxes and points were made.
#[derive(Clone, Copy)]
pub(crate) struct Counts {
    pub boxes: u32,
    pub points: u32,
}

/// The items of a search, and how many boxes and points were made after it.
#[derive(Drop)]
pub(crate) struct Searched {
    pub items: VecDeque<Item>,
    pub counts: Counts,
}

/// No item.
pub(crate) fn no_item(alloc: Global, counts: Counts) -> Searched
    ensures { out_of result ≡ nothing counts.boxes counts.points }
{
    Searched {
        items: VecDeque::new(alloc),
        counts,
    }
}

/// One item.
pub(crate) fn one_item(
    alloc: Global,
    item: Item,
    counts: Counts,
) -> Result<Option<Searched>, AllocError>
    ensures { IfOk result (λ o. Makes o (emit item (nothing counts.boxes counts.points))) }
{
    let mut items = VecDeque::new(alloc);
    items.push_back(item)?;
    Ok(Some(Searched { items, counts }))
}

/// The item, and then the search.
pub(crate) fn put_before(item: Item, rest: Option<Searched>) -> Result<Option<Searched>, AllocError>
    ensures { IfOk result (λ o. (whole : Out) → Makes rest whole → Makes o (emit item whole)) }
{
    let Some(mut searched) = rest else {
        return Ok(None);
    };
    searched.items.push_front(item)?;
    Ok(Some(searched))
}

/// The search, and then the item.
pub(crate) fn put_after(first: Option<Searched>, item: Item) -> Result<Option<Searched>, AllocError>
    ensures { IfOk result (λ o. (whole : Out) → Makes first whole →
        Makes o (and_then whole (λ n m. emit item (nothing n m)))) }
{
    let Some(mut searched) = first else {
        return Ok(None);
    };
    searched.items.push_back(item)?;
    Ok(Some(searched))
}

/// Whether the item is an error.
pub(crate) fn is_error(item: &Item) -> bool
    ensures { result ≡ is_error item.now }
{
    match item {
        Item::Error(_, _) => true,
        _ => false,
    }
}

/// The items up to the first error.
pub(crate) fn up_to_error(
    alloc: Global,
    mut items: VecDeque<Item>,
) -> Result<VecDeque<Item>, AllocError>
    ensures { IfOk result (λ kept. kept.items ≡ up_to_error items.items) }
{
    let mut kept = VecDeque::new(alloc);
    'items: while let Some(item) = items.pop_front() {
        let last = is_error(&item);
        kept.push_back(item)?;
        if last {
            // Dropped by calls: else each part is a step to check.
            drop(items);
            return Ok(kept);
        }
    }
    drop(items);
    Ok(kept)
}
