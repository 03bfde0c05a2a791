//! The room of an item that was given up.

ghost use Rattle.std.specs.Prelude.{◌≡◌, IfOk};

use super::Following;
use apd_trace::Item;
use std::alloc::{AllocError, Global};
use std::boxed::Box;
use std::mem::replace;

/// The room of a term with more symbols isn't kept.
const LARGE: u64 = 4096;

impl Following {
    /// An item in a box: that of the item that was given up, where there is one, the room of whose term is then written again.
    #[inline(always)]
    pub fn boxed(&mut self, alloc: Global, item: Item) -> Result<Box<Item>, AllocError>
        ensures item { IfOk result (λ b. b.value ≡ item) }
        ensures kept { self.new ≡ self.old }
    {
        match self.room.take() {
            None => Ok(Box::new(alloc, item)?),
            Some(mut room) => {
                // Of a port no other part need be looked at before the item stands in its place.
                match &*room {
                    Item::Passed(_) => self.linked.give_up(Box::replace(&mut room, item)),
                    _ => drop(Box::replace(&mut room, item)),
                }
                Ok(room)
            }
        }
    }

    /// Gives up a port. The next item is put into its box, unless its term is large.
    #[inline(always)]
    pub fn give_up(&mut self, item: Box<Item>)
        ensures { self.new ≡ self.old }
    {
        match &*item {
            Item::Passed(event) if event.atom.size() <= LARGE => {
                drop(replace(&mut self.room, Some(item)));
            }
            _ => drop(item),
        }
    }
}
