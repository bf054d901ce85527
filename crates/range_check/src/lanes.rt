// The lanes of a part, one after the other.
ghost use Rattle.std.specs.Prelude.{◌≡◌, ◌≤◌, ◌⊎◌, None, All, map, length, IfOk, IfErr};
ghost use Rattle.vertex_expr.specs.Node.{tree_of};
ghost use Rattle.vertex_expr.specs.Safe.{numbered};
ghost use Rattle.range_check.specs.Lists.{aggregates_of, first_node, first_sum, first_value};
ghost use Rattle.range_check.specs.Walk.{IsKnownIn, IsScope, box_in};

use crate::aggregate::aggregate;
use crate::interval::Interval;
use crate::refusal::RangeRefusal;
use crate::scope::Scope;
use crate::walk::walk;
use bolt_base::Items;
use std::alloc::Global;
use vertex_expr::{Combine, Expr, LaneRange, Part};

/// Intervals, one for each lane.
pub type IntervalList = Items<Interval>;

/// The intervals of the expressions of a part, or the first break of their nodes.
pub fn intervals(alloc: Global, exprs: &[Expr], scope: &Scope) -> Result<IntervalList, RangeRefusal>
    requires scope { IsScope scope.now.entries.now scope.now.part scope.now.aggregates.now }
    requires known { All (IsKnownIn scope.now.entries.now scope.now.part) (map tree_of exprs.now) }
    requires few { length (numbered (map tree_of exprs.now)) ≤ 2048 }
    ensures intervals { let box = box_in scope.now.entries.now scope.now.part in
        IfOk result (λ spans. spans ≡ map box (map tree_of exprs.now)) }
    ensures unbroken { let first = first_node scope.now.entries.now scope.now.part 0
        (map tree_of exprs.now) in
        IfOk result (λ _. first ≡ None) }
    ensures broken { let first = first_node scope.now.entries.now scope.now.part 0
        (map tree_of exprs.now) in
        IfErr result (λ r. (r ≡ RangeRefusal.Memory) ⊎ (first ≡ Some r)) }
{
    let mut spans = IntervalList::new(alloc);
    let mut next = 0;
    for expr in exprs {
        let walked = walk(expr, scope, next)?;
        spans.push(walked.span)?;
        next = walked.next;
    }
    Ok(spans)
}

/// Whether each interval is within its lane's range, or the first that isn't.
pub fn check_values(
    part: Part,
    spans: &[Interval],
    ranges: &[LaneRange],
) -> Result<(), RangeRefusal>
    requires lanes { length spans.now ≡ length ranges.now }
    requires few { length ranges.now ≤ 8 }
    ensures unbroken { IfOk result (λ _. first_value part 0 spans.now ranges.now ≡ None) }
    ensures broken { IfErr result (λ r. first_value part 0 spans.now ranges.now ≡ Some r) }
{
    for (lane, range) in ranges.iter().enumerate() {
        let span = spans[lane];
        if !span.is_within(*range) {
            return Err(RangeRefusal::Value {
                part,
                lane: lane as u32,
                lo: span.low(),
                hi: span.high(),
            });
        }
    }
    Ok(())
}

/// The intervals of the aggregates of these contributions, or the first lane at which one of both
/// doesn't fit i64.
pub fn aggregates(
    alloc: Global,
    contributions: &[Interval],
    combine: Combine,
    degree: u32,
) -> Result<IntervalList, RangeRefusal>
    requires few { length contributions.now ≤ 8 }
    requires degree { degree ≤ 1000000 }
    ensures aggregates { IfOk result
        (λ spans. spans ≡ aggregates_of combine degree contributions.now) }
    ensures unbroken { let aggregates = aggregates_of combine degree contributions.now in
        IfOk result (λ _. first_sum 0 contributions.now aggregates ≡ None) }
    ensures broken { let aggregates = aggregates_of combine degree contributions.now in
        let first = first_sum 0 contributions.now aggregates in
        IfErr result (λ r. (r ≡ RangeRefusal.Memory) ⊎ (first ≡ Some r)) }
{
    let mut spans = IntervalList::new(alloc);
    for (lane, contribution) in contributions.iter().enumerate() {
        match aggregate(*contribution, combine, degree) {
            Some(span) => spans.push(span)?,
            None => return Err(RangeRefusal::Sum { lane: lane as u32 }),
        }
    }
    Ok(spans)
}
