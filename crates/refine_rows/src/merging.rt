// Lists of vertices that rise, merged.
ghost use Rattle.std.specs.Prelude.{◌+◌, ◌<◌, IfOk};
ghost use Rattle.refine_rows.specs.Picked.{AreMerged};

use bolt_base::Memory;
use std::alloc::Global;

/// What is in either of two lists that rise, rising, once each.
pub fn merge(alloc: Global, xs: &[u32], ys: &[u32]) -> Result<Vec<u32>, Memory>
    ensures all { IfOk result (λ all. AreMerged xs.now ys.now all.items) }
{
    let mut all = Vec::with_capacity(alloc, xs.len().saturating_add(ys.len()))?;
    let mut i = 0;
    let mut j = 0;
    while i < xs.len() && j < ys.len() {
        let (x, y) = (xs[i], ys[j]);
        if y < x {
            all.push(y)?;
            j += 1;
        } else {
            all.push(x)?;
            i += 1;
            if x == y {
                j += 1;
            }
        }
    }
    all.extend_from_slice(&xs[i..])?;
    all.extend_from_slice(&ys[j..])?;
    Ok(all)
}
