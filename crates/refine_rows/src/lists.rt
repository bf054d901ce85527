// Vertices that a change names.
ghost use Rattle.std.specs.Prelude.{◌≡◌, ◌-◌, ◌≤◌, map, IfOk};
ghost use Rattle.std.specs.List.{range_with_len};

use adjacency::Change;
use bolt_base::Memory;
use std::alloc::Global;

/// The vertices whose attribute is another one, in the order of the change.
pub fn attr_vertices(alloc: Global, change: &Change) -> Result<Vec<u32>, Memory>
    ensures { IfOk result (λ vs. vs.items ≡ map (λ a. a.vertex) change.now.attrs) }
{
    let mut vs = Vec::with_capacity(alloc, change.attrs.len())?;
    for attr in change.attrs.as_slice() {
        vs.push(attr.vertex)?;
    }
    Ok(vs)
}

/// The vertices from the old number up to the new one.
pub fn new_vertices(alloc: Global, old: u32, new: u32) -> Result<Vec<u32>, Memory>
    requires { old ≤ new }
    ensures { IfOk result (λ vs. vs.items ≡ range_with_len old (new - old)) }
{
    let mut vs = Vec::with_capacity(alloc, (new - old) as usize)?;
    for v in old..new {
        vs.push(v)?;
    }
    Ok(vs)
}
