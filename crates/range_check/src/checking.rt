// The range check.
ghost use Rattle.std.specs.Prelude.{◌≡◌, ◌⊎◌, None, IfOk, IfErr};
ghost use Rattle.vertex_expr.specs.ProgramBounds.{aggregated};
ghost use Rattle.vertex_expr.specs.Writable.{IsWritable};
ghost use Rattle.range_check.specs.Breaks.{first_break};

use crate::accepted::Accepted;
use crate::lanes::{IntervalList, aggregates, check_values, intervals};
use crate::refusal::RangeRefusal;
use crate::scope::Scope;
use std::alloc::Global;
use vertex_expr::{Part, Program, ProgramEntries};

/// The program, accepted where it has no break. Any refusal but `Memory` is its first break, in
/// this order: the nodes of init and the lanes of its values, the nodes of contribute, the lanes of
/// the contributions and their aggregates, the nodes of apply and the lanes of its values.
pub fn check(alloc: Global, program: Program) -> Result<Accepted, RangeRefusal>
    ensures program { IfOk result (λ accepted. accepted ≡ program) }
    ensures unbroken { IfOk result (λ _. first_break program ≡ None) }
    ensures broken { IfErr result
        (λ r. (r ≡ RangeRefusal.Memory) ⊎ (first_break program ≡ Some r)) }
{
    let aggregates = check_entries(alloc, program.entries())?;
    Ok(Accepted::new(program, aggregates))
}

// The intervals of the aggregates, where there is no break.
fn check_entries(alloc: Global, entries: &ProgramEntries) -> Result<IntervalList, RangeRefusal>
    requires writable { IsWritable entries.now }
    ensures aggregates { IfOk result (λ spans. spans ≡ aggregated entries.now) }
    ensures unbroken { IfOk result (λ _. first_break entries.now ≡ None) }
    ensures broken { IfErr result (λ r. (r ≡ RangeRefusal.Memory) ⊎
        (first_break entries.now ≡ Some r)) }
{
    let ranges = entries.ranges.as_slice();
    let init = Scope {
        part: Part::Init,
        entries,
        aggregates: &[],
    };
    let initial = intervals(alloc, entries.init.as_slice(), &init)?;
    check_values(Part::Init, initial.as_slice(), ranges)?;
    let contribute = Scope {
        part: Part::Contribute,
        entries,
        aggregates: &[],
    };
    let contributions = intervals(alloc, entries.contribute.as_slice(), &contribute)?;
    let aggregates = aggregates(
        alloc,
        contributions.as_slice(),
        entries.combine,
        entries.limits.degree,
    )?;
    let apply = Scope {
        part: Part::Apply,
        entries,
        aggregates: aggregates.as_slice(),
    };
    let applied = intervals(alloc, entries.apply.as_slice(), &apply)?;
    check_values(Part::Apply, applied.as_slice(), ranges)?;
    Ok(aggregates)
}
