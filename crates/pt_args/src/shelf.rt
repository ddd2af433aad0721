//! Bytes that are put below the caller's stack, one item below the other.
ghost use Rattle.std.specs.Prelude.{◌≡◌, ◌+◌, ◌≤◌, [], IfOk, OnErr, OnOk, length};
ghost use Rattle.pt_args.specs.Shelving.{address_below, with_item, with_zero};

use crate::edit::Pokes;
use pt_canon::below::pr_base::{Bytes, NoMemory};
use std::alloc::Global;

/// Addresses of items are multiples of this.
const ALIGNMENT: u64 = 8;

/// Items with their addresses, each below the one before it.
#[derive(Drop)]
pub struct Shelf {
    /// The address below which the next item ends.
    pub top: u64,
    pub items: Pokes,
}

impl Shelf {
    /// A shelf without items below an address. It takes no memory yet.
    pub fn below(alloc: Global, top: u64) -> Shelf
        ensures { result ≡ record { top = top; items = [] } }
    {
        Shelf {
            top,
            items: Pokes::new(alloc),
        }
    }

    /// Puts an item below the others and answers its address.
    pub fn put(&mut self, item: Bytes) -> Result<u64, NoMemory>
        requires { length item ≤ self.old.top }
        ensures at { IfOk result (λ at. at ≡ address_below self.old.top (length item)) }
        ensures ok { OnOk result (self.new ≡ with_item self.old item) }
        ensures err { OnErr result (self.new ≡ self.old) }
    {
        let at = address_below(self.top, item.len());
        self.items.push(at, item)?;
        self.top = at;
        Ok(at)
    }

    /// Puts a text with a zero byte behind it below the others and answers its address.
    pub fn put_text(&mut self, text: Bytes) -> Result<u64, NoMemory>
        requires { length text + 1 ≤ self.old.top }
        ensures at { IfOk result (λ at. at ≡ address_below self.old.top (length (with_zero text))) }
        ensures ok { OnOk result (self.new ≡ with_item self.old (with_zero text)) }
        ensures err { OnErr result (self.new ≡ self.old) }
    {
        let mut item = text;
        item.append(b"\0")?;
        self.put(item)
    }

    /// The items with their addresses. It takes no memory.
    pub fn into_items(self) -> Pokes
        ensures { result ≡ self.items }
    {
        let Shelf { top: _, items } = self;
        items
    }
}

/// The highest address for `size` bytes that end at most at `top`.
fn address_below(top: u64, size: usize) -> u64
    requires { size ≤ top }
    ensures { result ≡ address_below top size }
{
    (top - size as u64) / ALIGNMENT * ALIGNMENT
}
