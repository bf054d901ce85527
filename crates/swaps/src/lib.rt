//! Items that are swapped into a list at given places, and swapped out again.
#![tactic(auto)]

ghost use Rattle.std.specs.Prelude.{◌≡◌, [], length};
ghost use Rattle.swaps.specs.Swaps.{put_all, undo, places, AreInside};

use std::mem;

#[cfg(test)]
mod tests;

/// Puts each item in its place, in order, and leaves in its stead what stood there. Takes no
/// memory.
pub fn swap_in<X>(all: &mut Vec<X>, items: &mut Vec<(u32, X)>)
    requires { AreInside (length all.old.items) items.old.items }
    ensures put { all.new.items ≡ put_all items.old.items all.old.items }
    ensures back { undo items.new.items all.new.items ≡ all.old.items }
    ensures inside { AreInside (length all.new.items) items.new.items }
    ensures length { length all.new.items ≡ length all.old.items }
    ensures count { length items.new.items ≡ length items.old.items }
    ensures places { places items.new.items ≡ places items.old.items }
{
    let count = items.len();
    for i in 0..count {
        let (place, item) = &mut items[i];
        mem::swap(&mut all[*place as usize], item);
    }
}

/// Puts back what stood there, the last first, and drops what stands there now. Takes no memory.
pub fn put_back<X: Drop>(all: &mut Vec<X>, items: &mut Vec<(u32, X)>)
    requires { AreInside (length all.old.items) items.old.items }
    ensures back { all.new.items ≡ undo items.old.items all.old.items }
    ensures none { items.new.items ≡ [] }
    ensures length { length all.new.items ≡ length all.old.items }
{
    while let Some((place, item)) = items.pop() {
        all[place as usize] = item;
    }
}
